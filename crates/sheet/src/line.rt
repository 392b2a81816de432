// The lines of a sheet: where one ends, and which key it begins with.
ghost use Rattle.sheet.specs.Ends.{Heads};
ghost use Rattle.sheet.specs.Format.{cut};
ghost use Rattle.sheet.specs.Keys.{key_of};
ghost use Rattle.std.specs.Option.{option_map};
ghost use Rattle.std.specs.Prelude.{◌≡◌, ◌==◌, position};

const NEWLINE: u8 = b'\n';

#[derive(Clone, Copy)]
pub(crate) enum Key {
    Style,
    Names,
    Name,
    Asks,
    Ask,
}

impl Key {
    // The key that a line begins with, and how long it is. With what stands behind the key in the
    // length's place (`rest @ ..`) the last arm of this match did not close.
    fn of(line: &[u8]) -> Option<(Key, usize)>
        ensures { result ≡ key_of line.now }
    {
        match line {
            [b's', b't', b'y', b'l', b'e', b'=', ..] => Some((Key::Style, 6)),
            [b'n', b'a', b'm', b'e', b's', b'=', ..] => Some((Key::Names, 6)),
            [b'n', b'a', b'm', b'e', b'=', ..] => Some((Key::Name, 5)),
            [b'a', b's', b'k', b's', b'=', ..] => Some((Key::Asks, 5)),
            [b'a', b's', b'k', b'=', ..] => Some((Key::Ask, 4)),
            _ => None,
        }
    }
}

// A line that begins with a key.
#[derive(Clone, Copy)]
pub(crate) struct Line<'a> {
    pub(crate) key: Key,
    // Behind the key, up to the byte 10.
    pub(crate) rest: &'a [u8],
    // Behind the byte 10.
    pub(crate) behind: &'a [u8],
}

impl<'a> Line<'a> {
    // The line that the bytes begin with.
    pub(crate) fn first(bytes: &'a [u8]) -> Option<Line<'a>>
        ensures { Heads bytes.now result }
    {
        let (line, behind) = cut_line(bytes)?;
        let (key, size) = Key::of(line)?;
        let rest = &line[size..];
        Some(Line { key, rest, behind })
    }
}

// Where the first byte 10 stands; byte 13 ends no line.
fn line_end(bytes: &[u8]) -> Option<usize>
    ensures { result ≡ position (λ b. b == 10) bytes.now }
{
    bytes.iter().position(|b| *b == NEWLINE)
}

// The bytes in front of the first byte 10, and those behind it.
fn cut_line(bytes: &[u8]) -> Option<(&[u8], &[u8])>
    ensures { option_map (λ p. (p.0.now, p.1.now)) result ≡ cut bytes.now }
{
    let end = line_end(bytes)?;
    Some((&bytes[..end], &bytes[end + 1..]))
}
