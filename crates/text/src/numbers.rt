// Decimal numbers, read and written.
ghost use Rattle.std.specs.Prelude.{◌≡◌, ◌+◌, ◌≤◌, true, length, is_ok, vec_len, vec_capacity};
ghost use Rattle.std.specs.Str.{bytes_eq};
ghost use Rattle.text.specs.Decimal.{ReadsBack, digits, number_of, unpadded};
ghost use Rattle.text.specs.Writing.{Appends, Placed, Put};

use crate::bytes::put_bytes;
use std::alloc::AllocError;

// The largest number that is read.
const LARGEST: u64 = 0xffff_ffff;

// How many digits the largest u64 has.
const MOST_DIGITS: usize = 20;

// The number below 2^32 that the bytes write in decimal, without leading zeros.
pub fn read_number(bytes: &[u8]) -> Option<u32>
    ensures { result ≡ number_of bytes.now }
{
    if !is_unpadded(bytes) {
        return None;
    }
    let mut value: u64 = 0;
    for byte in bytes {
        if !byte.is_ascii_digit() {
            return None;
        }
        value = value * 10 + u64::from(*byte - b'0');
        if value > LARGEST {
            return None;
        }
    }
    Some(value as u32)
}

// Whether there is a byte, and no leading zero.
fn is_unpadded(bytes: &[u8]) -> bool
    ensures { result ≡ unpadded bytes.now }
{
    !matches!(bytes, [] | [b'0', _, ..])
}

// Whether the bytes are the digits of n.
pub fn spells(bytes: &[u8], n: u32) -> bool
    ensures value { result ≡ bytes_eq bytes.now (digits n) }
    ensures law { ReadsBack }
{
    read_number(bytes) == Some(n)
}

// Writes the digits of n into the buffer from `at` on, and answers where they end.
// Where they do not fit, the buffer stays as it is.
pub fn put_number(buf: &mut [u8], at: usize, n: u64) -> Option<usize>
    ensures { Put buf.old at (digits n) result buf.new }
{
    let mut scratch = [0; MOST_DIGITS];
    let count = put_digits(&mut scratch, n);
    put_bytes(buf, at, &scratch[0..count])
}

// Appends the digits of n. Without memory for them, the list stays as it is.
pub fn append_number(out: &mut Vec<u8>, n: u64) -> Result<(), AllocError>
    ensures items { Appends out.old.items (digits n) result out.new.items }
    ensures succeeds { vec_len out.old + length (digits n) ≤ vec_capacity out.old → is_ok result ≡ true }
    ensures capacity { vec_capacity out.old ≤ vec_capacity out.new }
{
    let mut scratch = [0; MOST_DIGITS];
    let count = put_digits(&mut scratch, n);
    out.extend_from_slice(&scratch[0..count])
}

// Writes the digits of n at the front of the buffer, and answers how many there are: those of its tenth part, unless that
// is 0, and then its last.
fn put_digits(buf: &mut [u8], n: u64) -> usize
    requires { length (digits n) ≤ length buf.old }
    ensures { Placed buf.old 0 (digits n) result buf.new }
{
    let tenth = n / 10;
    let end = if tenth > 0 { put_digits(buf, tenth) } else { 0 };
    buf[end] = b'0' + (n % 10) as u8;
    end + 1
}
