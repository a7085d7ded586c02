// The fields of a line.
ghost use Rattle.std.specs.Prelude.{◌≡◌, map, slice_set};
ghost use Rattle.text.specs.Fields.{Answer, cut_line, filled, found};
ghost use Rattle.text.specs.Grammar.{Grammar};

// A quote misplaced or unclosed, or a byte outside 32 to 126, in the field of this number, counted from 1.
#[derive(Clone, Copy, Debug, PartialEq, Eq)]
pub struct Malformed {
    pub field: usize,
}

// Where the reader stands in a field.
#[derive(Clone, Copy)]
enum State {
    Start,
    Plain,
    Quoted,
    AfterQuote,
}

// Cuts a line at its commas into fields, of which each may stand in quotes, and answers how many
// there are. The fields are put into `out` as far as there is room.
pub fn cut_fields<'a>(line: &'a [u8], out: &mut [&'a [u8]]) -> Result<usize, Malformed>
    ensures answer { Answer (cut_line line.now) result }
    ensures places { map (λ x. x.now) out.new ≡ filled (map (λ x. x.now) out.old) (found (cut_line line.now)) }
    ensures grammar { Grammar line.now }
{
    let mut count = 0;
    let mut state = State::Start;
    let mut start = 0;
    let mut end = 0;
    for (i, byte) in line.iter().enumerate() {
        match (state, *byte) {
            (State::Start, b'"') => {
                state = State::Quoted;
                start = i + 1;
                end = i + 1;
            }
            (State::Quoted, b'"') => state = State::AfterQuote,
            (State::Start | State::Plain | State::AfterQuote, b',') => {
                place(out, count, &line[start..end]);
                count += 1;
                state = State::Start;
                start = i + 1;
                end = i + 1;
            }
            (State::Start | State::Plain, b' ' | b'!' | b'#'..=b'~') => {
                state = State::Plain;
                end = i + 1;
            }
            (State::Quoted, b' '..=b'~') => end = i + 1,
            _ => return Err(Malformed { field: count + 1 }),
        }
    }
    if let State::Quoted = state {
        return Err(Malformed { field: count + 1 });
    }
    place(out, count, &line[start..end]);
    Ok(count + 1)
}

// Puts a field at a place, if there is such a place.
fn place<'a>(out: &mut [&'a [u8]], at: usize, field: &'a [u8])
    ensures { map (λ x. x.now) out.new ≡ slice_set (map (λ x. x.now) out.old) at field.now }
{
    if at < out.len() {
        out[at] = field;
    }
}
