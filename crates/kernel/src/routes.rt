//! A plan with the in-links and out-links of each of its processes at hand.
ghost use Rattle.kernel.specs.Wiring.{Wired};

use model::plan::Plan;

mod asked;
mod made;

// The links of a process, by in-port and by out-port.
#[derive(Drop)]
pub(crate) struct PortLists {
    ins: Vec<usize>,
    outs: Vec<usize>,
}

#[derive(Drop)]
pub(crate) struct Routes {
    plan: Plan,
    ports: Vec<PortLists>,
    ghost wired: { Wired plan ports.items },
}
