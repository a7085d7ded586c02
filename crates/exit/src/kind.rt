//! The kinds of process that a plan has.
ghost use Rattle.std.specs.Prelude.{◌≡◌, Option};
ghost use Rattle.model.specs.declared.sending.Sending.{Sending as Sent};
ghost use Rattle.exit.specs.declared.kind.Kind.{Kind as Both};
ghost use Rattle.exit.specs.Kinds.{kind_lookahead, kind_rule};
ghost use Rattle.std.proofs.Common.{rules};

use crate::Exit;
use model::cargo::Cargo;
use model::process::Process;
use model::sending::Sending;

// A process of a plan: a node of the plan's family, or an exit. A family with several kinds of node has an enum of them for P.
#[derive(Clone, Copy, PartialEq, Eq, Debug)]
pub enum Kind<P> {
    Node(P),
    Exit(Exit),
}

impl<C: Cargo, P: Process<C>> Process<C> for Kind<P> {
    ghost lookahead = { kind_lookahead P.lookahead };

    ghost rule = { kind_rule P.rule };

    ghost within = { Prim.search rules };

    ghost constant = { Prim.search rules };

    fn lookahead(&self) -> u32
        ensures { result ≡ kind_lookahead P.lookahead self.now }
    {
        match self {
            Kind::Node(node) => node.lookahead(),
            Kind::Exit(exit) => exit.lookahead(),
        }
    }

    fn handle(&mut self, port: usize, time: u32, cargo: C) -> Option<Sending<C>>
        ensures { ◌≡◌ {A = Both P × Option (Sent C)} (self.new, result) (kind_rule P.rule self.old port time cargo) }
    {
        match self {
            Kind::Node(node) => node.handle(port, time, cargo),
            Kind::Exit(exit) => exit.handle(port, time, cargo),
        }
    }
}
