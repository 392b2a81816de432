// Lines of output, each written into the front of a lent buffer.
ghost use Rattle.lines.specs.Lines.{joined, line, text_line};
ghost use Rattle.lines.specs.Overlay.{overlaid, Writes};
ghost use Rattle.std.specs.Prelude.{◌≡◌, ◌+◌, ◌≤◌, ◌++◌, length, take};

use base::{Cause, Refusal};
use itoa::{Buffer, Integer};

// Stands on both sides of a text.
const QUOTE: &[u8] = b"\"";

// Ends a line.
const NEWLINE: &[u8] = b"\n";

// The functions here are inlined, so that a key known at the call is copied without a call.

// Puts the bytes behind the first `at` of the tail, and answers where they end.
#[inline(always)]
fn put(tail: &mut [u8], at: usize, bytes: &[u8]) -> usize
    requires { at + length bytes.now ≤ length tail.old }
    ensures value { result ≡ at + length bytes.now }
    ensures change { tail.new ≡ overlaid (take at tail.old ++ bytes.now) tail.old }
{
    let end = at + bytes.len();
    tail[at..end].copy_from_slice(bytes);
    end
}

// How many bytes the parts have together, which may pass usize. The casts widen; the library has no
// `From<usize>` for u128.
#[inline(always)]
fn size_of(parts: &[&[u8]]) -> u128
    ensures { result ≡ length (joined parts.now) }
{
    parts.iter().map(|part| part.len() as u128).sum()
}

// Writes the parts, one behind the other.
#[inline(always)]
fn write_parts(tail: &mut [u8], parts: &[&[u8]]) -> Result<usize, Refusal>
    ensures { Writes tail.old tail.new (joined parts.now) result }
{
    if size_of(parts) > tail.len() as u128 {
        return Err(Cause::BufferShort.at(0));
    }
    // A split of the tail at each part would want the end counted as well.
    let mut end = 0;
    for part in parts {
        end = put(tail, end, part);
    }
    Ok(end)
}

// Writes a line that says a written text, between quotes.
#[inline(always)]
pub fn write_text_line(tail: &mut [u8], key: &[u8], written: &[u8]) -> Result<usize, Refusal>
    ensures { Writes tail.old tail.new (text_line key.now written.now) result }
{
    write_parts(tail, &[key, QUOTE, written, QUOTE, NEWLINE])
}

// Writes a line that says a number in decimal.
#[inline(always)]
pub fn write_number_line<I: Integer>(tail: &mut [u8], key: &[u8], n: I) -> Result<usize, Refusal>
    ensures { Writes tail.old tail.new (line key.now (I.text n)) result }
{
    let mut buffer = Buffer::new();
    let digits = buffer.format(n).as_bytes();
    write_parts(tail, &[key, digits, NEWLINE])
}

#[cfg(test)]
mod tests {
    use super::*;

    #[test]
    fn text_between_quotes(rt: HostRuntime) {
        let mut tail = [b'.'; 11];
        assert_eq!(rt; write_text_line(&mut tail, b"name=", b"ab").ok(), Some(10));
        assert_eq!(rt; tail, *b"name=\"ab\"\n.");
    }

    #[test]
    fn counts(rt: HostRuntime) {
        let mut tail = [b'.'; 24];
        assert_eq!(rt;
            write_number_line(&mut tail, b"n=", usize::MAX).ok(),
            Some(23)
        );
        assert_eq!(rt; tail, *b"n=18446744073709551615\n.");
        assert_eq!(rt; write_number_line(&mut tail, b"n=", 0usize).ok(), Some(4));
        assert_eq!(rt; tail, *b"n=0\n446744073709551615\n.");
    }

    #[test]
    fn signed_numbers(rt: HostRuntime) {
        let mut tail = [b'.'; 14];
        assert_eq!(rt;
            write_number_line(&mut tail, b"z=", i32::MIN).ok(),
            Some(14)
        );
        assert_eq!(rt; tail, *b"z=-2147483648\n");
        assert_eq!(rt; write_number_line(&mut tail, b"z=", 7i32).ok(), Some(4));
        assert_eq!(rt; tail, *b"z=7\n147483648\n");
    }

    #[test]
    fn one_byte_short(rt: HostRuntime) {
        let mut tail = [b'.'; 9];
        assert!(rt; write_text_line(&mut tail, b"name=", b"ab").is_err());
        assert!(rt; write_number_line(&mut tail, b"count=", 100usize).is_err());
        assert!(rt; write_number_line(&mut tail, b"value=", -10i32).is_err());
        assert_eq!(rt; tail, *b".........");
    }
}
