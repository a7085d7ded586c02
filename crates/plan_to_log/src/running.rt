//! A net run until quiet, and its log written out.
ghost use Rattle.std.specs.Prelude.{◌≡◌, IfOk};
ghost use Rattle.model.specs.Numbers.{unprepared_numbers};
ghost use Rattle.model.specs.Made.{shape_of};
ghost use Rattle.records.specs.LogText.{number_line};
ghost use Rattle.simulation.specs.Programs.{program_of};
ghost use Rattle.kernel.specs.OfRun.{view_of};
ghost use Rattle.plan_to_log.specs.declared.output.Ending.TheVariants.{NotPrepared};
ghost use Rattle.layers.specs.Delayed.{delayed};
ghost use Rattle.layers.specs.Rationed.{rationed};
ghost use Rattle.plan_to_log.specs.Running.{Refusals, Ended, RanOut, Ran};

use crate::histories::write_log;
use crate::output::{Ending, Output, Standing};
use kernel::run::Run;
use layers::delay::Delay;
use layers::quota::Quota;
use model::cargo::Cargo;
use model::links::Links;
use model::opening::Opening;
use model::plan::Plan;
use model::process::Process;
use model::refusal::Unprepared;
use records::log::appending::append_refusal;
use std::alloc::{AllocError, Global};

// The log of a run has room for so many records.
const LOG_SIZE: usize = 4_096;

// Every process steps once more: those that are refused, and where their clocks stand.
fn refusals<C: Cargo, P: Process<C>, L: Links<C>>(
    heap: Global,
    run: &mut Run<C, P, L>,
    processes: usize,
) -> Result<Vec<Standing>, AllocError>
    ensures { IfOk result (λ ss. Refusals (program_of C.Cargo P.Process) (view_of run.old) processes ss.items (view_of run.new)) }
{
    let mut standing = Vec::new(heap);
    for process in 0..processes {
        let Ok(clock) = run.clock(process) else {
            continue;
        };
        if let Err(why) = run.step(process) {
            standing.push(Standing {
                process,
                clock,
                why,
            })?;
        }
    }
    Ok(standing)
}

// How a quiet run is told.
fn ended<C: Cargo, P: Process<C>, L: Links<C>>(
    heap: Global,
    run: &mut Run<C, P, L>,
    processes: usize,
) -> Result<Ending, AllocError>
    ensures { IfOk result (λ e. Ended (program_of C.Cargo P.Process) (view_of run.old) processes e) }
{
    if run.done() {
        Ok(Ending::Finished)
    } else {
        Ok(Ending::Unfinished(refusals(heap, run, processes)?))
    }
}

// What is told of a net that has no run.
fn unprepared(heap: Global, why: Unprepared) -> Result<Output, AllocError>
    ensures { IfOk result (λ o. (o.ending ≡ NotPrepared why) × (o.text.items ≡ number_line (unprepared_numbers why))) }
{
    let mut text = Vec::new(heap);
    append_refusal(&mut text, heap, &why)?;
    Ok(Output {
        text,
        ending: Ending::NotPrepared(why),
    })
}

// Runs a prepared net until quiet, and writes out its log.
fn run_out<C: Cargo, P: Process<C>, L: Links<C>>(
    heap: Global,
    run: &mut Run<C, P, L>,
    processes: usize,
) -> Result<Output, AllocError>
    ensures { IfOk result (λ o. RanOut (program_of C.Cargo P.Process) (view_of run.old) processes o.text.items o.ending) }
{
    run.run(u32::MAX);
    let text = write_log(heap, run.log(), processes)?;
    let ending = ended(heap, run, processes)?;
    Ok(Output { text, ending })
}

// What becomes of a net over a store, with a delay and a quota for each link.
pub(crate) fn run_net<C: Cargo, P: Process<C>, S: Links<C> + Drop>(
    heap: Global,
    plan: Plan,
    processes: Vec<P>,
    opening: &[Opening<C>],
    links: Delay<Quota<S>>,
) -> Result<Output, AllocError>
    ensures { IfOk result (λ o. Ran (program_of C.Cargo P.Process) (record { plan = shape_of plan; processes = processes.items; opening = opening.now }) (delayed (rationed (S.Links.meaning links.below.below) links.below.left) links.extra) o.text.items o.ending) }
{
    let count = plan.processes();
    match Run::prepare(heap, plan, processes, opening, links, LOG_SIZE) {
        Ok(mut run) => run_out(heap, &mut run, count),
        Err(back) => match back.why {
            Unprepared::NoMemory => Err(AllocError),
            why => unprepared(heap, why),
        },
    }
}
