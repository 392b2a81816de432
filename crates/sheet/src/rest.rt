// What stands behind the key of a line.
ghost use Rattle.base.specs.Outcomes.{read_as};
ghost use Rattle.sheet.specs.Format.{count, text};
ghost use Rattle.sheet.specs.Parts.{IsPart};
ghost use Rattle.sheet.specs.Texts.{text_of};
ghost use Rattle.std.specs.Prelude.{◌≡◌, IfOk};

use crate::number::read_natural;
use crate::quote::read_quoted;
use crate::text::Text;
use base::Cause;

const LARGEST_COUNT: u8 = 128;

// A quoted name that is the whole rest of its line.
pub(crate) fn read_text(rest: &[u8]) -> Result<Text<'_>, Cause>
    ensures value { read_as text_of result ≡ text rest.now }
    ensures part { IfOk result (λ t. IsPart rest.now t.written.now) }
{
    match read_quoted(rest, 0) {
        Ok((begin, end, behind)) if behind == rest.len() => Ok(Text {
            written: &rest[begin..end],
        }),
        _ => Err(Cause::BadText),
    }
}

// A count of lines, 0 to 128.
pub(crate) fn read_count(rest: &[u8]) -> Result<u8, Cause>
    ensures { result ≡ count rest.now }
{
    read_natural(rest)
        .and_then(|n| u8::try_from(n).ok())
        .filter(|n| *n <= LARGEST_COUNT)
        .ok_or(Cause::BadNumber)
}
