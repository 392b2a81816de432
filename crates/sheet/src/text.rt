// A text where it stands in a sheet.
ghost use Rattle.sheet.specs.Text.{inner, single};
ghost use Rattle.std.specs.Prelude.{◌≡◌, [], false};

// What stands between the outer quotes: the text, its quotes doubled.
#[derive(Clone, Copy)]
pub(crate) struct Text<'a> {
    pub(crate) written: &'a [u8],
    ghost is_doubled: { written.now ≡ inner (single false written.now) },
}

// Written out, since a derive does not cover the ghost field.
impl Default for Text<'_> {
    fn default() -> Self
        ensures { result.written.now ≡ [] }
    {
        Text { written: &[] }
    }
}

impl Text<'_> {
    ghost use Rattle.sheet.specs.Same.{same_text};
    ghost use Rattle.sheet.specs.Texts.{text_of};

    // Whether the texts agree with A to Z read as a to z. So their written forms do, since a quote
    // is no letter.
    pub(crate) fn is_same(&self, other: &Text<'_>) -> bool
        ensures { result ≡ same_text (text_of self.now) (text_of other.now) }
    {
        self.written.eq_ignore_ascii_case(other.written)
    }
}
