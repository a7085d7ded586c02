// The lines of a text.
ghost use Rattle.std.specs.Prelude.{◌≡◌, ◌≤◌, [], Some, None, length};
ghost use Rattle.std.specs.Iterator.{YieldsFirstRef, item_count};
ghost use Rattle.text.specs.Lines.{FirstLine, lines_left, lines_of};

// The first line of a text, without its end, and what follows; none of an empty text.
pub fn split_line(text: &[u8]) -> Option<(&[u8], &[u8])>
    ensures { elim result [ None ↦ text.now ≡ [] | Some p ↦ FirstLine text.now p.0.now p.1.now ] }
{
    if text.is_empty() {
        return None;
    }
    match text.iter().position(|byte| *byte == b'\n') {
        Some(end) => {
            let front = &text[..end];
            // A CR right before the LF belongs to the line's end.
            let line = front.strip_suffix(b"\r").unwrap_or(front);
            Some((line, &text[end + 1..]))
        }
        None => Some((text, &text[text.len()..])),
    }
}

// The lines of a text, one after another.
#[derive(Drop)]
pub struct SplitLines<'a> {
    rest: &'a [u8],
}

// All lines of a text, from its first one on.
pub fn lines(text: &[u8]) -> SplitLines<'_>
    ensures all { lines_left result ≡ lines_of text.now }
    ensures few { length (lines_of text.now) ≤ length text.now }
{
    SplitLines { rest: text }
}

impl<'a> Iterator for SplitLines<'a> {
    type Item = &'a [u8];

    ghost next_gives = { YieldsFirstRef lines_left };

    ghost remaining = { item_count lines_left };

    fn next(&mut self) -> Option<&'a [u8]> {
        let (line, rest) = split_line(self.rest)?;
        self.rest = rest;
        Some(line)
    }
}
