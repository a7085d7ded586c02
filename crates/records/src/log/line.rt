//! A line of the log in a caller's buffer.
ghost use Rattle.std.specs.Prelude.{◌≡◌, ◌+◌, ◌≤◌, ◌++◌, length};
ghost use Rattle.text.specs.Decimal.{digits};
ghost use Rattle.text.specs.Writing.{Placed};
ghost use Rattle.records.specs.LogText.{line_of, Written};

use super::LogLine;
use model::reading::LineFault;
use model::record::Record;
use text::slate::Slate;

// No line is longer.
pub const LONGEST: usize = 32;

// Writes a number and what stands behind it.
fn put_part(slate: &mut Slate, n: u64, behind: &[u8])
    requires { slate.old.end + length (digits n ++ behind.now) ≤ length slate.old.buf.now }
    ensures same { slate.new.buf.ghost_name ≡ slate.old.buf.ghost_name }
    ensures puts { Placed slate.old.buf.now slate.old.end (digits n ++ behind.now) slate.new.end slate.new.buf.now }
    ensures long { length slate.new.buf.now ≡ length slate.old.buf.now }
{
    slate.put_number(n).unwrap();
    slate.put_bytes(behind).unwrap();
}

impl LogLine {
    // The line of a record that stands at place n of its history, if both are within the limits.
    pub fn new(event: Record, n: usize) -> Option<LogLine>
        ensures { result ≡ line_of event n }
    {
        if event.process < 64 && n < 65_536 && event.time < 1_000_000 && event.link < 128 {
            Some(LogLine { event, n })
        } else {
            None
        }
    }

    // Writes the line into the buffer, and answers how long it is.
    #[tactic(auto, using(crate::proofs::Putting::short, crate::proofs::Putting::short_code))]
    pub fn write(&self, buf: &mut [u8]) -> Result<usize, LineFault>
        ensures { Written buf.old self.now result buf.new }
    {
        if buf.len() < LONGEST {
            return Err(LineFault::ShortBuffer);
        }
        let mut slate = Slate { buf, end: 0 };
        put_part(&mut slate, self.event.process as u64, b",");
        put_part(&mut slate, self.n as u64, b",");
        put_part(&mut slate, u64::from(self.event.time), b",");
        put_part(&mut slate, self.event.link as u64, b",");
        put_part(&mut slate, u64::from(self.event.code), b"\r\n");
        Ok(slate.end)
    }
}
