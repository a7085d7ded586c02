//! How a junction sends a vehicle on.
ghost use Rattle.std.specs.Prelude.{◌≡◌};
ghost use Rattle.road.specs.Routes.{turn_of};
ghost use Rattle.road.specs.Vehicles.{onward, turned};

use super::Vehicle;
use model::sending::Sending;

impl Vehicle {
    // The turn that it makes at the next junction.
    pub fn turn(&self) -> u32
        ensures { result ≡ turn_of self.now.route }
    {
        self.route % 4
    }

    // The vehicle with that turn behind it.
    pub fn onward(self) -> Vehicle
        ensures { result ≡ onward self }
    {
        Vehicle {
            class: self.class,
            route: self.route / 4 + 49_152,
        }
    }

    // What a junction sends as the vehicle leaves it at this time, by the out-port of its turn.
    pub fn turned(self, time: u32) -> Option<Sending<Vehicle>>
        ensures { result ≡ turned self time }
    {
        match self.turn() as usize {
            port if port < 3 => Some(Sending {
                port,
                time,
                cargo: self.onward(),
            }),
            // Turn 3 has no port.
            _ => None,
        }
    }
}
