//! What travels on a switch plan.
ghost use Rattle.std.specs.Prelude.{◌≡◌, true};
ghost use Rattle.packet.specs.Limits.{frame_within};

pub mod cargo;
pub mod making;
pub mod sending;

// A frame: where it goes, and how long it is. No frame outside the limits exists.
#[derive(Clone, Copy, PartialEq, Eq, Debug)]
pub struct Frame {
    destination: u32,
    length: u32,
    ghost limits: { frame_within destination length ≡ true },
}
