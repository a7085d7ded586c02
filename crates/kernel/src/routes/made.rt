ghost use Rattle.std.specs.Prelude.{◌≡◌, IfOk, MatchResult};
ghost use Rattle.model.specs.Shape.{in_links, out_links};
ghost use Rattle.model.specs.Made.{shape_of};
ghost use Rattle.kernel.specs.Wiring.{Wired};

use super::{PortLists, Routes};
use model::plan::Plan;
use std::alloc::{AllocError, Global};

// The links of a process by port.
fn lists_of(heap: Global, plan: &Plan, process: usize) -> Result<PortLists, AllocError>
    ensures ins { IfOk result (λ p. p.ins.items ≡ in_links (shape_of plan.now) process) }
    ensures outs { IfOk result (λ p. p.outs.items ≡ out_links (shape_of plan.now) process) }
{
    Ok(PortLists {
        ins: plan.in_links(heap, process)?,
        outs: plan.out_links(heap, process)?,
    })
}

// The same for every process.
fn all_lists(heap: Global, plan: &Plan) -> Result<Vec<PortLists>, AllocError>
    ensures { IfOk result (λ all. Wired plan.now all.items) }
{
    (0..plan.processes())
        .map(|process| lists_of(heap, plan, process))
        .try_collect(heap)
}

impl Routes {
    // The routes of a plan, or the plan back where memory is wanting.
    pub(crate) fn new(heap: Global, plan: Plan) -> Result<Routes, Plan>
        ensures { MatchResult result (λ s. s.plan ≡ plan) (λ p. p ≡ plan) }
    {
        match all_lists(heap, &plan) {
            Ok(ports) => Ok(Routes { plan, ports }),
            Err(_) => Err(plan),
        }
    }
}
