//! Steps and passes, as calls of a run.
ghost use Rattle.std.specs.Prelude.{◌≡◌};
ghost use Rattle.simulation.specs.Calls.{Call, Pass, quiet};
ghost use Rattle.simulation.specs.Programs.{program_of};
ghost use Rattle.kernel.specs.OfRun.{view_of, Called};
ghost use Rattle.kernel.specs.Breaching.{Breaches};

use super::Run;
use model::answer::{Passed, Stepped};
use model::cargo::Cargo;
use model::links::Links;
use model::process::Process;
use model::refusal::Refusal;

// Whether a step took no event and put no null. A refused one did neither.
fn was_quiet<C: Cargo>(answer: Result<Stepped<C>, Refusal>) -> bool
    ensures { result ≡ quiet answer }
{
    answer.map_or(
        true,
        |stepped| stepped.taken.is_none() && stepped.nulls == 0,
    )
}

impl<C: Cargo, P: Process<C>, L: Links<C>> Run<C, P, L> {
    // One step of a process: its safe event, if there is one, then null messages, then its mark. A breach that it reports is
    // the one by which the sequential simulation stops that process.
    pub fn step(&mut self, process: usize) -> Result<Stepped<C>, Refusal>
        ensures called { Called (program_of C.Cargo P.Process) (Call.step process) (view_of self.old) result (view_of self.new) }
        ensures breaches { Breaches (program_of C.Cargo P.Process) (view_of self.old) process result }
    {
        self.once(process)
    }

    // Every process steps once, rising, refused or not; answers whether all was quiet.
    fn pass(&mut self) -> bool
        ensures { Pass (program_of C.Cargo P.Process) (view_of self.old) self.old.routes.plan.processes result (view_of self.new) }
    {
        let mut all = true;
        let processes = self.routes.plan().processes();
        for process in 0..processes {
            let quiet = was_quiet(self.once(process));
            all = all && quiet;
        }
        all
    }

    // Passes until one is quiet or so many are made.
    pub fn run(&mut self, passes: u32) -> Passed
        ensures { Called (program_of C.Cargo P.Process) (Call.run passes) (view_of self.old) result (view_of self.new) }
    {
        for made in 0..passes {
            if self.pass() {
                return Passed {
                    passes: made + 1,
                    quiet: true,
                };
            }
        }
        Passed {
            passes,
            quiet: false,
        }
    }
}
