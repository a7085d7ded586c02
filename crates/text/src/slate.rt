// A caller's buffer, written piece by piece.
ghost use Rattle.std.specs.Prelude.{◌≡◌};
ghost use Rattle.text.specs.Decimal.{digits};
ghost use Rattle.text.specs.Writing.{Puts};

use crate::bytes::put_bytes;
use crate::numbers::put_number;

// A buffer, and where what is written in it ends.
#[derive(Drop)]
pub struct Slate<'a> {
    pub buf: &'a mut [u8],
    pub end: usize,
}

impl Slate<'_> {
    // Writes the bytes behind what is written. Where they do not fit, the slate stays as it is.
    pub fn put_bytes(&mut self, bytes: &[u8]) -> Option<()>
        ensures same { self.new.buf.ghost_name ≡ self.old.buf.ghost_name }
        ensures puts { Puts self.old.buf.now self.old.end bytes.now result self.new.end self.new.buf.now }
    {
        self.end = put_bytes(self.buf, self.end, bytes)?;
        Some(())
    }

    // Writes the digits of n behind what is written. Where they do not fit, the slate stays as it is.
    pub fn put_number(&mut self, n: u64) -> Option<()>
        ensures same { self.new.buf.ghost_name ≡ self.old.buf.ghost_name }
        ensures puts { Puts self.old.buf.now self.old.end (digits n) result self.new.end self.new.buf.now }
    {
        self.end = put_number(self.buf, self.end, n)?;
        Some(())
    }
}
