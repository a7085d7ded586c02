//! How an exit is made, and what it is made of.
ghost use Rattle.std.specs.Prelude.{◌≡◌};
ghost use Rattle.exit.specs.Exits.{exit_of};

use crate::Exit;
use crate::limits::between;

impl Exit {
    // An exit, if the lookahead is within the limits.
    pub fn new(lookahead: u32) -> Option<Exit>
        ensures { result ≡ exit_of lookahead }
    {
        if between(1, 10_000, lookahead) {
            Some(Exit { lookahead })
        } else {
            None
        }
    }

    pub fn lookahead(&self) -> u32
        ensures { result ≡ self.now.lookahead }
    {
        self.lookahead
    }
}
