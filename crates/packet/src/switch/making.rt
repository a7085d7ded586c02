//! How a switch is made, and what it is made of.
ghost use Rattle.std.specs.Prelude.{◌≡◌};
ghost use Rattle.packet.specs.Switches.{switch_of};

use super::Switch;
use exit::limits::between;

impl Switch {
    // A switch that is free from the start, if lookahead and service are within the limits.
    pub fn new(lookahead: u32, service: u32) -> Option<Switch>
        ensures { result ≡ switch_of lookahead service }
    {
        if between(1, 10_000, lookahead) && between(1, 10_000, service) {
            Some(Switch {
                lookahead,
                service,
                free: 0,
            })
        } else {
            None
        }
    }

    pub fn service(&self) -> u32
        ensures { result ≡ self.now.service }
    {
        self.service
    }

    // The time from which the next frame can be served.
    pub fn free(&self) -> u32
        ensures { result ≡ self.now.free }
    {
        self.free
    }
}
