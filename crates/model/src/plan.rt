//! What a run is prepared from.
ghost use Rattle.std.specs.Prelude.{◌≡◌, true};
ghost use Rattle.model.specs.Shape.{within};

use crate::link::Link;

pub mod made;
pub mod ports;

// A plan: its horizon, how many processes it has, and its links. No plan outside the limits exists.
#[derive(Drop)]
pub struct Plan {
    horizon: u32,
    processes: usize,
    links: Vec<Link>,
    ghost limits: { within (record { horizon = horizon; processes = processes; links = links.items }) ≡ true },
}
