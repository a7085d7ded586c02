//! The nine fields of a record.
ghost use Rattle.std.specs.Prelude.{◌≡◌, ◌≤◌, length, map};
ghost use Rattle.text.specs.Fields.{cut_line};
ghost use Rattle.records.specs.Rows.{kind_of, number_of, cell, row_of, row_cut};
ghost use Rattle.records.specs.Cells.{unused_from};
ghost use Rattle.records.specs.Families.{misplaced_word};

use super::cell::Cell;
use model::reading::{FieldFault, Problem, RecordFault};
use std::marker::Model;
use text::fields::cut_fields;

// A record of a line: its kind, its number and the rest.
#[derive(Drop)]
pub struct Fields<'a> {
    pub line: u32,
    kind: &'a [u8],
    number: &'a [u8],
    rest: [&'a [u8]; 7],
}

impl<'a> Model for Fields<'a> {
    ghost use Rattle.std.specs.Prelude.{map};
    ghost use Rattle.records.specs.Rows.{Row};

    ghost Value = { Row };

    ghost view = { λ r. record { line = r.line; kind = r.kind.now; number = r.number.now; rest = map (λ x. x.now) r.rest } };
}

impl<'a> Fields<'a> {
    // The record of nine fields.
    pub fn new(line: u32, fields: [&'a [u8]; 9]) -> Fields<'a>
        ensures { result ≡ row_of line (map (λ x. x.now) fields.entry) }
    {
        let [kind, number, a, b, c, d, e, f, g] = fields;
        Fields {
            line,
            kind,
            number,
            rest: [a, b, c, d, e, f, g],
        }
    }

    // Cuts a line into its fields, of which there must be nine.
    pub(super) fn of_line(line: u32, bytes: &'a [u8]) -> Result<Fields<'a>, RecordFault>
        requires { length bytes.now ≤ 65536 }
        ensures { result ≡ row_cut line (cut_line bytes.now) }
    {
        let empty = &bytes[0..0];
        let mut fields = [empty; 9];
        let count = cut_fields(bytes, &mut fields).map_err(|malformed| FieldFault {
            line,
            field: malformed.field as u32,
            problem: Problem::Malformed,
        })?;
        if count != 9 {
            return Err(RecordFault::NotNineFields(line));
        }
        Ok(Fields::new(line, fields))
    }

    // Field 1: the word that names the kind.
    pub fn kind(&self) -> Cell<'a>
        ensures { result ≡ kind_of self.now }
    {
        Cell {
            line: self.line,
            field: 1,
            bytes: self.kind,
        }
    }

    // Field 2.
    pub fn number(&self) -> Cell<'a>
        ensures { result ≡ number_of self.now }
    {
        Cell {
            line: self.line,
            field: 2,
            bytes: self.number,
        }
    }

    // A field from 3 to 9; empty from 10 on. Below 3 it has the bytes of field 3.
    pub fn cell(&self, field: u32) -> Cell<'a>
        ensures { result ≡ cell self.now field }
    {
        let place = field.saturating_sub(3) as usize;
        Cell {
            line: self.line,
            field,
            bytes: self.rest.get(place).copied().unwrap_or(&[]),
        }
    }

    // The fields from this one to the ninth are unused. One below 3 has the bytes of field 3.
    pub fn unused_from(&self, first: u32) -> Result<(), FieldFault>
        ensures { result ≡ unused_from first self.now }
    {
        for field in first..10 {
            self.cell(field).unused()?;
        }
        Ok(())
    }

    // Why a record is refused whose word is out of order or of the other family.
    pub fn misplaced(&self) -> RecordFault
        ensures { result ≡ misplaced_word self.now }
    {
        RecordFault::from(self.kind().fault(Problem::UnknownWord))
    }
}
