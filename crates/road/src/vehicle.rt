//! What drives on a road plan.
ghost use Rattle.std.specs.Prelude.{◌≡◌, true};
ghost use Rattle.road.specs.Limits.{vehicle_within};

pub mod cargo;
pub mod making;
pub mod turning;

// A vehicle: its class, and the turns that it still has to make. None outside the limits exists.
#[derive(Clone, Copy, PartialEq, Eq, Debug)]
pub struct Vehicle {
    class: u32,
    route: u32,
    ghost limits: { vehicle_within class route ≡ true },
}
