//! What was read of a plan.
ghost use Rattle.plan_to_log.specs.Sensible.{Sensible};

use model::opening::Opening;
use records::reading::kinds::{Net, PlannedLink};

// The net record, and what the others gave. None outside the limits of a plan exists.
#[derive(Drop)]
pub(crate) struct Reading<C, P> {
    pub(crate) net: Net,
    pub(crate) processes: Vec<P>,
    pub(crate) opening: Vec<Opening<C>>,
    pub(crate) links: Vec<PlannedLink>,
    ghost sensible: { Sensible net processes.items links.items },
}
