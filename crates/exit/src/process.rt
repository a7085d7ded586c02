//! What an exit does.
ghost use Rattle.exit.specs.Exits.{exit_lookahead, exit_rule};
ghost use Rattle.std.proofs.Common.{rules, arith};

use crate::Exit;
use model::cargo::Cargo;
use model::process::Process;
use model::sending::Sending;

impl<C: Cargo> Process<C> for Exit {
    ghost lookahead = { exit_lookahead };

    ghost rule = { exit_rule };

    ghost within = { Prim.search rules };

    ghost constant = { Prim.search rules };

    fn lookahead(&self) -> u32 {
        self.lookahead
    }

    fn handle(&mut self, _port: usize, _time: u32, _cargo: C) -> Option<Sending<C>> {
        None
    }
}
