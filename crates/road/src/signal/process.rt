//! What a signal does.
ghost use Rattle.std.specs.Prelude.{◌≡◌};
ghost use Rattle.road.specs.Starting.{start_of};
ghost use Rattle.road.specs.Signals.{signal_lookahead, signal_rule};
ghost use Rattle.std.proofs.Common.{rules, arith};

use super::Signal;
use crate::vehicle::Vehicle;
use model::process::Process;
use model::sending::Sending;

impl Signal {
    // When a vehicle that comes at this time starts: on green at once, else as the next cycle begins.
    fn start(&self, time: u32) -> u32
        ensures { result ≡ start_of self.now.settings self.now.free time }
    {
        let lights = self.settings;
        let ready = time.max(self.free);
        let phase = ready.saturating_add(lights.offset) % lights.cycle;
        if phase < lights.green {
            ready
        } else {
            ready.saturating_add(lights.cycle - phase)
        }
    }
}

impl Process<Vehicle> for Signal {
    ghost lookahead = { signal_lookahead };

    ghost rule = { signal_rule };

    ghost within = { Prim.search rules };

    ghost constant = { Prim.search rules };

    fn lookahead(&self) -> u32 {
        self.settings.lookahead
    }

    fn handle(&mut self, _port: usize, time: u32, vehicle: Vehicle) -> Option<Sending<Vehicle>> {
        let start = self.start(time);
        self.free = start.saturating_add(self.settings.headway);
        vehicle.turned(start.saturating_add(self.settings.crossing))
    }
}
