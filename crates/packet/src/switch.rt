//! A switch.
ghost use Rattle.std.specs.Prelude.{◌≡◌, true};
ghost use Rattle.packet.specs.Limits.{switch_within};

pub mod making;
pub mod process;

// A switch: the lookahead that it promises, its service time, and the time from which it is free.
// No switch outside the limits exists.
#[derive(Clone, Copy, PartialEq, Eq, Debug)]
pub struct Switch {
    lookahead: u32,
    service: u32,
    free: u32,
    ghost limits: { switch_within lookahead service ≡ true },
}
