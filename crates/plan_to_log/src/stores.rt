//! A plan that was read, run over a store: for now a ring, whichever it names.
ghost use Rattle.std.specs.Prelude.{◌≡◌, ◌*◌, length, IfOk};
ghost use Rattle.simulation.specs.Programs.{program_of};
ghost use Rattle.ring.specs.Meaning.{opened};
ghost use Rattle.plan_to_log.specs.Reading.{store_of, reading_net, reading_over};
ghost use Rattle.plan_to_log.specs.Running.{Ran};
ghost use Rattle.plan_to_log.specs.Stack.{Unset, links_in};

use crate::output::Output;
use crate::reading::Reading;
use crate::running::run_net;
use crate::stack::Planned;
use model::cargo::Cargo;
use model::link::Link;
use model::links::Links;
use model::plan::Plan;
use model::process::Process;
use records::reading::kinds::PlannedLink;
use records::reading::words::Store;
use ring::store::Ring;
use std::alloc::{AllocError, Global};
use std::marker::PhantomData;

// The links of a plan, without their quotas.
fn links_of(heap: Global, planned: &[PlannedLink]) -> Result<Vec<Link>, AllocError>
    ensures { IfOk result (λ v. v.items ≡ links_in planned.now) }
{
    planned.iter().map(|planned| planned.link).collect(heap)
}

// What becomes of a plan over a store.
fn run_over<C: Cargo, P: Process<C>, S: Links<C> + Drop>(
    heap: Global,
    reading: Reading<C, P>,
    store: S,
) -> Result<Output, AllocError>
    requires { Unset (length reading.links.items) (S.Links.meaning store) }
    ensures { IfOk result (λ o. Ran (program_of C.Cargo P.Process) (reading_net reading) (reading_over reading (S.Links.meaning store)) o.text.items o.ending) }
{
    let Reading {
        net,
        processes,
        opening,
        links,
    } = reading;
    let bare = links_of(heap, links.as_slice())?;
    let plan = Plan::new(net.horizon, processes.len(), bare).unwrap();
    let planned = Planned {
        links: store,
        settings: links.as_slice(),
        cargo: PhantomData::<C>,
    };
    run_net(heap, plan, processes, opening.as_slice(), planned.stacked())
}

// What becomes of a plan over a ring.
fn run_over_ring<C: Cargo, P: Process<C>>(
    heap: Global,
    reading: Reading<C, P>,
    blank: C,
) -> Result<Output, AllocError>
    ensures { IfOk result (λ o. Ran (program_of C.Cargo P.Process) (reading_net reading) (reading_over reading (opened (length reading.links.items) (length reading.links.items * reading.net.places))) o.text.items o.ending) }
{
    let links = reading.links.len();
    let mut lent = slots::blank(heap, links * reading.net.places as usize, blank)?;
    run_over(heap, reading, Ring::new(lent.as_mut_slice(), links))
}

// What becomes of a plan over its store, for now a ring.
pub(crate) fn run_reading<C: Cargo, P: Process<C>>(
    heap: Global,
    reading: Reading<C, P>,
    blank: C,
) -> Result<Output, AllocError>
    ensures { IfOk result (λ o. Ran (program_of C.Cargo P.Process) (reading_net reading) (reading_over reading (store_of reading.net.store (length reading.links.items) reading.net.places)) o.text.items o.ending) }
{
    match reading.net.store {
        Store::Ring | Store::Pool => run_over_ring(heap, reading, blank),
    }
}
