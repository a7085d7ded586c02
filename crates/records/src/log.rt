//! A line of the log.
ghost use Rattle.std.specs.Prelude.{◌≡◌, true};
ghost use Rattle.records.specs.Limits.{line_within};

use model::record::Record;

pub mod appending;
pub mod line;

// The heading of a log, with the end of its line.
pub const HEADING: &[u8] = b"process,n,time,link,cargo\r\n";

// A record of the log and its place in the history of its process. None outside the limits of a line exists.
#[derive(Clone, Copy, PartialEq, Eq, Debug)]
pub struct LogLine {
    event: Record,
    n: usize,
    ghost limits: { line_within event n ≡ true },
}
