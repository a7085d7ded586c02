//! Logs written out, process by process.
ghost use Rattle.std.specs.Prelude.{◌≡◌, ◌++◌, IfOk, OnOk};
ghost use Rattle.simulation.specs.View.{history};
ghost use Rattle.plan_to_log.specs.Histories.{lines_from, log_text};

use model::record::Record;
use records::log::appending::{append_heading, append_record};
use std::alloc::{AllocError, Global};

// Appends the history of a process, one line a record.
fn append_history(
    out: &mut Vec<u8>,
    heap: Global,
    log: &[Record],
    process: usize,
) -> Result<(), AllocError>
    ensures { OnOk result (out.new.items ≡ out.old.items ++ lines_from 0 (history process log.now)) }
{
    for (n, record) in log
        .iter()
        .filter(|record| record.process == process)
        .enumerate()
    {
        append_record(out, heap, *record, n)?;
    }
    Ok(())
}

// The whole text of a log of so many processes.
pub fn write_log(heap: Global, log: &[Record], processes: usize) -> Result<Vec<u8>, AllocError>
    ensures { IfOk result (λ v. v.items ≡ log_text processes log.now) }
{
    let mut out = Vec::new(heap);
    append_heading(&mut out)?;
    for process in 0..processes {
        append_history(&mut out, heap, log, process)?;
    }
    Ok(out)
}
