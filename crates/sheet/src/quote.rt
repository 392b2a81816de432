// Quoted names: read at a place of the bytes, and written at the front of a buffer's tail.
ghost use Rattle.lines.specs.Overlay.{overlaid, piece};
ghost use Rattle.sheet.specs.Quoted.{behind_letter, extent, sized, unquoted, written};
ghost use Rattle.sheet.specs.RoundTrips.{ReadsBack, ReadsExactly, Rewrites};
ghost use Rattle.sheet.specs.Text.{inner, printable, quoted};
ghost use Rattle.std.specs.Option.{option_map};
ghost use Rattle.std.specs.Prelude.{◌≡◌, ◌+◌, ◌≤◌, IfSome, length, drop};

use base::{Cause, Refusal};

pub(crate) const QUOTE: u8 = b'"';

// Written beside a quote inside a text, so that it is not taken for the closing one.
const ESCAPE: u8 = QUOTE;

const LONGEST: usize = 32;

const FIRST_PRINTABLE: u8 = b' ';

const LAST_PRINTABLE: u8 = b'~';

// A text that stands alone has no line: its place is 1. Written out, since a constant cannot call
// a function.
const BAD_TEXT: Refusal = Refusal {
    cause: Cause::BadText,
    place: 1,
};

// 32 quotes take two bytes each, between the outer ones.
pub(crate) const LONGEST_QUOTED: usize = 66;

fn is_printable(b: u8) -> bool
    ensures { result ≡ printable b }
{
    (FIRST_PRINTABLE..=LAST_PRINTABLE).contains(&b)
}

// Reads a quoted name at a place, which a caller may have anywhere in its bytes: begin and end of
// the text inside its outer quotes, and the place behind them. The text keeps its quotes doubled
// there. Places and no parts are answered, as callers go on in their own bytes.
pub fn read_quoted(bytes: &[u8], at: usize) -> Result<(usize, usize, usize), Refusal>
    ensures value { result ≡ extent at (unquoted (drop at bytes.now)) }
    ensures exactly { ReadsExactly (drop at bytes.now) }
    ensures again { Rewrites bytes.now at result }
{
    scan_quoted(bytes, at)
}

#[tactic(auto, using(crate::proofs::Reading::past_end))]
fn scan_quoted(bytes: &[u8], at: usize) -> Result<(usize, usize, usize), Refusal>
    ensures { result ≡ extent at (unquoted (drop at bytes.now)) }
{
    let front = bytes.get(at..).ok_or(BAD_TEXT)?;
    let size = written_size(front).ok_or(BAD_TEXT)?;
    let begin = at + 1;
    let end = begin + size;
    Ok((begin, end, end + 1))
}

// What stands behind the byte of text that the bytes begin with; none where the text ends.
fn behind_letter(bytes: &[u8]) -> Option<&[u8]>
    ensures { option_map (λ x. x.now) result ≡ behind_letter bytes.now }
{
    match bytes {
        [QUOTE, ESCAPE, behind @ ..] => Some(behind),
        [QUOTE, ..] => None,
        [b, behind @ ..] if is_printable(*b) => Some(behind),
        _ => None,
    }
}

// How many bytes the text takes between the outer quotes of the quoted name that the bytes begin
// with. A text has at most 32 bytes, so its closing quote is met within 33 turns.
fn written_size(bytes: &[u8]) -> Option<usize>
    ensures value { result ≡ option_map (λ t. length (inner t)) (unquoted bytes.now) }
    ensures inside { IfSome result (λ size. size + 2 ≤ length bytes.now) }
{
    let [QUOTE, body @ ..] = bytes else {
        return None;
    };
    let mut rest = body;
    for _n in 0..=LONGEST {
        let Some(behind) = behind_letter(rest) else {
            if rest.len() == body.len() || !rest.starts_with(&[QUOTE]) {
                return None;
            }
            return Some(body.len() - rest.len());
        };
        rest = behind;
    }
    None
}

// How many bytes a text takes when quoted.
fn quoted_size(text: &[u8]) -> Result<usize, Refusal>
    ensures { result ≡ sized text.now }
{
    if text.is_empty() || text.len() > LONGEST {
        return Err(BAD_TEXT);
    }
    let mut size = 2;
    for byte in text {
        if !is_printable(*byte) {
            return Err(BAD_TEXT);
        }
        size += 1;
        if *byte == QUOTE {
            size += 1;
        }
    }
    Ok(size)
}

// Writes a text, quoted, into the front of the tail, and answers how many bytes it took.
pub fn write_quoted(tail: &mut [u8], text: &[u8]) -> Result<usize, Refusal>
    ensures value { result ≡ written tail.old text.now }
    ensures change { tail.new ≡ overlaid (piece result (quoted text.now)) tail.old }
    ensures back { ReadsBack result tail.new text.now }
{
    put_quoted(tail, text)
}

// Nothing is written before the size is known to fit.
fn put_quoted(tail: &mut [u8], text: &[u8]) -> Result<usize, Refusal>
    ensures value { result ≡ written tail.old text.now }
    ensures change { tail.new ≡ overlaid (piece result (quoted text.now)) tail.old }
{
    let size = quoted_size(text)?;
    if size > tail.len() {
        return Err(Cause::BufferShort.at(0));
    }
    tail[0] = QUOTE;
    let mut next = 1;
    for byte in text {
        tail[next] = *byte;
        next += 1;
        if *byte == QUOTE {
            tail[next] = ESCAPE;
            next += 1;
        }
    }
    tail[next] = QUOTE;
    Ok(size)
}
