// Numbers in decimal, without plus sign and leading zero.
ghost use Rattle.sheet.specs.Number.{below, natural, number};
ghost use Rattle.std.specs.Prelude.{◌≡◌, Some};

// As many digits as the largest 32-bit number has.
const LONGEST: usize = 10;

const MINUS: u8 = b'-';

const ZERO: u8 = b'0';

// The number that the text is the decimal form of, below ten to the tenth.
pub(crate) fn read_natural(text: &[u8]) -> Option<u64>
    ensures { result ≡ natural text.now }
{
    if text.is_empty() || text.len() > LONGEST {
        return None;
    }
    if text[0] == ZERO && text.len() > 1 {
        return None;
    }
    let mut value: u64 = 0;
    for digit in text {
        if !digit.is_ascii_digit() {
            return None;
        }
        value = value * 10 + u64::from(*digit - ZERO);
    }
    Some(value)
}

// The number below 0 of this size, in 32 bits.
fn negative(n: u64) -> Option<i32>
    ensures { result ≡ below (Some n) }
{
    if n == 0 {
        return None;
    }
    i32::try_from(-i128::from(n)).ok()
}

// A signed number of 32 bits.
pub(crate) fn read_number(text: &[u8]) -> Option<i32>
    ensures { result ≡ number text.now }
{
    match text {
        [MINUS, digits @ ..] => negative(read_natural(digits)?),
        digits => i32::try_from(read_natural(digits)?).ok(),
    }
}
