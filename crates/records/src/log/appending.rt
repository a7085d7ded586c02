//! Lines appended to a text.
ghost use Rattle.std.specs.Prelude.{◌≡◌, IfOk};
ghost use Rattle.text.specs.Writing.{Appends};
ghost use Rattle.records.specs.LogText.{heading, line_numbers, number_line};

use super::HEADING;
use model::numbered::Numbered;
use model::record::Record;
use std::alloc::{AllocError, Global};
use text::numbers::append_number;

// Appends the heading of a log. Without memory for it, the text stays as it is.
pub fn append_heading(out: &mut Vec<u8>) -> Result<(), AllocError>
    ensures { Appends out.old.items heading result out.new.items }
{
    out.extend_from_slice(HEADING)
}

// Appends the line of a record that stands at place n of its history. Without memory for it, the text stays as it is.
pub fn append_record(
    out: &mut Vec<u8>,
    heap: Global,
    event: Record,
    n: usize,
) -> Result<(), AllocError>
    ensures { Appends out.old.items (number_line (line_numbers event n)) result out.new.items }
{
    let numbers = [
        event.process as u64,
        n as u64,
        u64::from(event.time),
        event.link as u64,
        u64::from(event.code),
    ];
    append_numbers(out, heap, &numbers)
}

// Appends the line of a refusal: its numbers. Without memory for it, the text stays as it is.
pub fn append_refusal<R: Numbered>(
    out: &mut Vec<u8>,
    heap: Global,
    refusal: &R,
) -> Result<(), AllocError>
    ensures { Appends out.old.items (number_line (R.numbers refusal.now)) result out.new.items }
{
    let numbers = refusal.numbers(heap)?;
    append_numbers(out, heap, numbers.as_slice())
}

// Appends a line of numbers. Without memory for it, the text stays as it is.
fn append_numbers(out: &mut Vec<u8>, heap: Global, numbers: &[u64]) -> Result<(), AllocError>
    ensures { Appends out.old.items (number_line numbers.now) result out.new.items }
{
    let line = line_of_numbers(heap, numbers)?;
    out.extend_from_slice(line.as_slice())
}

// A line of numbers, with commas between.
fn line_of_numbers(heap: Global, numbers: &[u64]) -> Result<Vec<u8>, AllocError>
    ensures { IfOk result (λ v. v.items ≡ number_line numbers.now) }
{
    let mut line = Vec::new(heap);
    for (i, n) in numbers.iter().enumerate() {
        if i > 0 {
            line.push(b',')?;
        }
        append_number(&mut line, *n)?;
    }
    line.extend_from_slice(b"\r\n")?;
    Ok(line)
}
