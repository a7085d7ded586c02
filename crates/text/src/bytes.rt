// Byte strings: compared, and put into a caller's buffer.
ghost use Rattle.std.specs.Prelude.{◌≡◌};
ghost use Rattle.std.specs.Str.{bytes_eq};
ghost use Rattle.text.specs.Writing.{Put};

// Whether two byte strings are equal.
pub fn same(a: &[u8], b: &[u8]) -> bool
    ensures { result ≡ bytes_eq a.now b.now }
{
    a == b
}

// Writes the bytes into the buffer from `at` on, and answers where they end.
// Where they do not fit, the buffer stays as it is.
pub fn put_bytes(buf: &mut [u8], at: usize, bytes: &[u8]) -> Option<usize>
    ensures { Put buf.old at bytes.now result buf.new }
{
    let end = at.checked_add(bytes.len())?;
    if end > buf.len() {
        return None;
    }
    buf[at..end].copy_from_slice(bytes);
    Some(end)
}
