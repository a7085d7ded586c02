//! The lines of a plan behind the net record.
ghost use Rattle.std.specs.Prelude.{◌≡◌, ◌≤◌, length};
ghost use Rattle.text.specs.Fields.{cut_line};
ghost use Rattle.text.specs.Lines.{lines_of};
ghost use Rattle.records.specs.Filling.{held, rooms};
ghost use Rattle.records.specs.Adding.{Taken, line_taken};
ghost use Rattle.records.specs.Lines.{AllTaken, lines_taken};

use super::families::ProcessKind;
use super::fields::Fields;
use super::lists::{Lists, Starts};
use super::lookups::past;
use model::reading::{PlanFault, RecordFault};
use text::lines::lines;

impl<C: Copy, P: ProcessKind<C>> Lists<C, P> {
    // One line: its fields, and what the record adds.
    fn take_line(&mut self, starts: Starts, line: u32, bytes: &[u8]) -> Result<(), RecordFault>
        requires { length bytes.now ≤ 65536 }
        ensures items { ◌≡◌ {A = Taken P C} (held self.new, result) (line_taken P.ProcessKind.processed P.ProcessKind.loaded (rooms self.old) starts line (cut_line bytes.now) (held self.old)) }
        ensures room { rooms self.new ≡ rooms self.old }
    {
        let fields = Fields::of_line(line, bytes)?;
        self.take_record(starts, &fields)
    }

    // The lines from the second on. What the records before a refused one gave stays.
    pub(super) fn take_lines(&mut self, starts: Starts, text: &[u8]) -> Result<(), PlanFault>
        requires { length text.now ≤ 65536 }
        ensures items { ◌≡◌ {A = AllTaken P C} (held self.new, result) (lines_taken P.ProcessKind.processed P.ProcessKind.loaded (rooms self.old) starts 2 (lines_of text.now) (held self.old)) }
        ensures room { rooms self.new ≡ rooms self.old }
    {
        for (record, line) in lines(text).zip(2..) {
            self.take_line(starts, line, record)?;
        }
        if past(&self.processes, starts.processes).is_empty() {
            return Err(PlanFault::NoProcess);
        }
        Ok(())
    }
}
