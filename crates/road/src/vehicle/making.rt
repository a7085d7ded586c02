//! How a vehicle is made, and what it is made of.
ghost use Rattle.std.specs.Prelude.{◌≡◌};
ghost use Rattle.road.specs.Vehicles.{vehicle_of};

use super::Vehicle;
use exit::limits::between;

impl Vehicle {
    // A vehicle, if class and route are within the limits.
    pub fn new(class: u32, route: u32) -> Option<Vehicle>
        ensures { result ≡ vehicle_of class route }
    {
        if between(0, 3, class) && between(0, 65_535, route) {
            Some(Vehicle { class, route })
        } else {
            None
        }
    }

    pub fn class(&self) -> u32
        ensures { result ≡ self.now.class }
    {
        self.class
    }

    pub fn route(&self) -> u32
        ensures { result ≡ self.now.route }
    {
        self.route
    }
}
