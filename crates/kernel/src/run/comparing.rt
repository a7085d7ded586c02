//! The comparison of two runs.
ghost use Rattle.std.specs.Prelude.{◌≡◌};
ghost use Rattle.simulation.specs.View.{history};
ghost use Rattle.simulation.specs.Net.{Net};
ghost use Rattle.simulation.specs.Law.{Together};
ghost use Rattle.simulation.specs.Programs.{program_of};
ghost use Rattle.kernel.specs.OfRun.{view_of};
ghost use Rattle.kernel.specs.Deciding.{Decided};

use super::Run;
use model::cargo::Cargo;
use model::links::Links;
use model::process::Process;
use model::record::Record;

// Whether two records are the same.
fn same_record(a: &Record, b: &Record) -> bool
    ensures { Decided result (a.now ≡ b.now) }
{
    a == b
}

// Whether a process has the same history in two logs.
fn same_in_logs(a: &[Record], b: &[Record], process: usize) -> bool
    ensures { Decided result (history process a.now ≡ history process b.now) }
{
    let of_process = |record: &&Record| record.process == process;
    let mut others = b.iter().filter(of_process);
    for record in a.iter().filter(of_process) {
        let Some(other) = others.next() else {
            return false;
        };
        if !same_record(record, other) {
            return false;
        }
    }
    others.next().is_none()
}

// Whether a process has the same history in two runs, over links of any two kinds. Of runs of one plan the law then holds:
// the histories are equal exactly when equally long, and each run follows the sequential simulation.
pub fn same_history<C: Cargo, P: Process<C>, L: Links<C>, M: Links<C>>(
    a: &Run<C, P, L>,
    b: &Run<C, P, M>,
    process: usize,
) -> bool
    ensures answer { Decided result (history process a.now.log.items ≡ history process b.now.log.items) }
    ensures law { (net : Net C P) → Together (program_of C.Cargo P.Process) net (view_of a.now) (view_of b.now) }
{
    same_in_logs(a.log.as_slice(), b.log.as_slice(), process)
}
