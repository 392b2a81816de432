// What a sheet answers.
ghost use Rattle.array_list.specs.Items.{items};
ghost use Rattle.sheet.specs.Format.{lookup};
ghost use Rattle.sheet.specs.Lookup.{number_of, numbered};
ghost use Rattle.sheet.specs.Same.{same_text};
ghost use Rattle.sheet.specs.Texts.{text_of};
ghost use Rattle.sheet.specs.View.{view, written_names, written_style};
ghost use Rattle.std.specs.Option.{option_map};
ghost use Rattle.std.specs.List.{slice_get};
ghost use Rattle.std.specs.Prelude.{◌≡◌, ◌<◌, ◌≤◌, IfSome, length, position};

use super::Sheet;
use crate::quote::{LONGEST_QUOTED, write_quoted};
use crate::text::Text;
use base::NameId;

impl<'a> Sheet<'a> {
    // The style as it is written inside its outer quotes.
    pub fn style(&self) -> &'a [u8]
        ensures { result.now ≡ written_style self.now }
    {
        self.style.written
    }

    // How many names there are.
    pub fn name_count(&self) -> usize
        ensures value { result ≡ length (view self.now).names }
        ensures few { result ≤ 128 }
    {
        self.names.len()
    }

    // A name as it is written inside its outer quotes; none past the last.
    pub fn name(&self, n: NameId) -> Option<&'a [u8]>
        ensures { option_map (λ x. x.now) result ≡ slice_get (written_names self.now) n.0 }
    {
        let name = self.names.get(usize::from(n.0))?;
        Some(name.written)
    }

    // The asks, each resolved to its number.
    pub fn asks(&self) -> &[i32]
        ensures value { result.now ≡ (view self.now).asks }
        ensures few { length result.now ≤ 128 }
    {
        self.asks.as_slice()
    }

    // The number of the name that is the same text; the text is given plain, its quotes single.
    pub fn lookup(&self, text: &[u8]) -> Option<NameId>
        ensures { result ≡ numbered (number_of (view self.now).names text.now) }
    {
        let mut quoted = [0; LONGEST_QUOTED];
        let size = write_quoted(&mut quoted, text).ok()?;
        let written = &quoted[1..size - 1];
        self.find(&Text { written })
    }

    // Where the first name stands that is the same text.
    fn place_of(&self, text: &Text<'_>) -> Option<usize>
        ensures value { result ≡ position (λ n. same_text (text_of n) (text_of text.now)) (items self.now.names) }
        ensures inside { IfSome result (λ i. i < 128) }
    {
        self.names
            .as_slice()
            .iter()
            .position(|name| name.is_same(text))
    }

    // The number of the name that is the same text.
    pub(crate) fn find(&self, text: &Text<'_>) -> Option<NameId>
        ensures { result ≡ numbered (lookup (view self.now).names (text_of text.now) 0) }
    {
        let i = self.place_of(text)?;
        // A checked conversion would add an error that cannot come.
        Some(NameId(i as u8))
    }
}
