// Words from bytes.
ghost use Rattle.array_list.specs.Items.{items};
ghost use Rattle.image.specs.Bytes.{BytesBack, words_in};
ghost use Rattle.base.specs.Outcomes.{read_as};
ghost use Rattle.std.specs.Prelude.{◌≡◌};

use crate::limits::MAX_WORDS;
use array_list::ArrayVec;
use base::{Cause, Refusal};

// As many words as an image may have.
pub type Words = ArrayVec<u32, MAX_WORDS>;

const WORD_BYTES: usize = 4;

// The words of some bytes: four bytes a word, the least first. Part of a word, or more words than an
// image may have, is refused as an image of the wrong size.
pub fn words_of(bytes: &[u8]) -> Result<Words, Refusal>
    ensures value { read_as items result ≡ words_in bytes.now }
    ensures back { BytesBack bytes.now }
{
    let (parts, rest) = bytes.as_chunks::<WORD_BYTES>();
    if !rest.is_empty() || parts.len() > MAX_WORDS {
        return Err(Cause::ImageSize.at(0));
    }
    let mut words = Words::new(0);
    for part in parts {
        words.push(u32::from_le_bytes(*part));
    }
    Ok(words)
}
