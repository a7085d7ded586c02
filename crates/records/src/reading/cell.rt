//! One field of a record.
ghost use Rattle.std.specs.Prelude.{◌≡◌};
ghost use Rattle.model.specs.declared.reading.Problem.TheVariants.{OutOfRange};
ghost use Rattle.records.specs.Rows.{faulty};
ghost use Rattle.records.specs.Cells.{made, spelt, counted, ranged, next_of, unused, existing_of, source_of, quota_of, outside_at, outside_of};

use super::kinds::PlannedLink;
use super::words::Choice;
use model::reading::{FieldFault, Problem};
use std::marker::Model;
use text::numbers::read_number;

// A field of a record, and where it stands: line and field count from 1.
#[derive(Drop)]
pub struct Cell<'a> {
    pub line: u32,
    pub field: u32,
    pub bytes: &'a [u8],
}

impl<'a> Model for Cell<'a> {
    ghost use Rattle.records.specs.Rows.{Cell as Seen};

    ghost Value = { Seen };

    ghost view = { λ c. record { line = c.line; field = c.field; bytes = c.bytes.now } };
}

impl<'a> Cell<'a> {
    // What is wrong with the field.
    pub fn fault(&self, problem: Problem) -> FieldFault
        ensures { result ≡ faulty self.now problem }
    {
        FieldFault {
            line: self.line,
            field: self.field,
            problem,
        }
    }

    // What was made of the field; where nothing was, it is out of range.
    pub fn made<T>(&self, value: Option<T>) -> Result<T, FieldFault>
        ensures { result ≡ made OutOfRange self.now value }
    {
        value.ok_or(self.fault(Problem::OutOfRange))
    }

    // A word of a choice.
    pub fn word<W: Choice>(&self) -> Result<W, FieldFault>
        ensures { result ≡ spelt W.spelt self.now }
    {
        W::of_bytes(self.bytes).ok_or(self.fault(Problem::UnknownWord))
    }

    // A number.
    fn number(&self) -> Result<u32, FieldFault>
        ensures { result ≡ counted self.now }
    {
        self.made(read_number(self.bytes))
    }

    // A number from low to high.
    pub fn in_range(&self, low: u32, high: u32) -> Result<u32, FieldFault>
        ensures { result ≡ ranged low high self.now }
    {
        let n = self.number()?;
        if (low..=high).contains(&n) {
            Ok(n)
        } else {
            Err(self.fault(Problem::OutOfRange))
        }
    }

    // The next number.
    pub fn next(&self, next: usize) -> Result<u32, FieldFault>
        ensures { result ≡ next_of next self.now }
    {
        let n = self.number()?;
        if n as usize == next {
            Ok(n)
        } else {
            Err(self.fault(Problem::NotNext))
        }
    }

    // A field that its kind of record does not use.
    pub fn unused(&self) -> Result<(), FieldFault>
        ensures { result ≡ unused self.now }
    {
        if self.bytes.is_empty() {
            Ok(())
        } else {
            Err(self.fault(Problem::OutOfRange))
        }
    }

    // The number of one of so many processes.
    pub fn process(&self, processes: usize) -> Result<usize, FieldFault>
        ensures { result ≡ existing_of processes self.now }
    {
        let n = self.number()? as usize;
        if n < processes {
            Ok(n)
        } else {
            Err(self.fault(Problem::Absent))
        }
    }

    // The process that a link leads from; an empty field stands for outside.
    pub fn source(&self, processes: usize) -> Result<Option<usize>, FieldFault>
        ensures { result ≡ source_of processes self.now }
    {
        if self.bytes.is_empty() {
            return Ok(None);
        }
        Ok(Some(self.process(processes)?))
    }

    // A link's quota; an empty field leaves it as it is.
    pub fn quota(&self) -> Result<Option<u32>, FieldFault>
        ensures { result ≡ quota_of self.now }
    {
        if self.bytes.is_empty() {
            return Ok(None);
        }
        Ok(Some(self.in_range(1, 65_535)?))
    }

    // The link of an event: one that leads from outside.
    pub fn outside_link(&self, links: &[PlannedLink]) -> Result<usize, FieldFault>
        ensures { result ≡ outside_of links.now self.now }
    {
        let n = self.number()? as usize;
        if is_outside(links, n) {
            Ok(n)
        } else {
            Err(self.fault(Problem::Absent))
        }
    }
}

// Whether there is a link of this number and it leads from outside.
fn is_outside(links: &[PlannedLink], number: usize) -> bool
    ensures { result ≡ outside_at links.now number }
{
    links
        .get(number)
        .is_some_and(|planned| planned.link.from.is_none())
}
