//! The number that stands for a vehicle in a log.
ghost use Rattle.exit.proofs.Made.{parts_of_code};
ghost use Rattle.road.specs.SameVehicle.{same_vehicle};
ghost use Rattle.road.specs.Vehicles.{vehicle_code};
ghost use Rattle.std.proofs.Common.{rules, arith};

use super::Vehicle;
use model::cargo::Cargo;

impl Cargo for Vehicle {
    ghost code = { vehicle_code };

    ghost small = { Prim.search rules };

    ghost distinct = { λ x y e.
        let parts = parts_of_code x.class x.route y.class y.route (Prim.search rules) (Prim.search rules) e in
        same_vehicle x y parts.0 parts.1 };

    fn code(&self) -> u32 {
        self.class * 65_536 + self.route
    }
}
