// Which line of a sheet comes next.
ghost use Rattle.sheet.specs.Sections.{asks_left, is_last, names_left};
ghost use Rattle.std.specs.Prelude.{◌≡◌};

// A section of lines names how many more of its kind come behind the next one.
#[derive(Clone, Copy)]
pub(crate) enum Section {
    Style,
    Names,
    Name(u8),
    Asks,
    Ask(u8),
    End,
}

impl Section {
    // Nothing is to come but the end. One case is asked for; a derived equality would compare all.
    pub(crate) fn is_last(self) -> bool
        ensures { result ≡ is_last self }
    {
        matches!(self, Section::End)
    }

    // So many names are to come, and then the asks. One function for this and `asks_left` would
    // take a closure and the section behind, and be longer than both.
    pub(crate) fn names_left(count: u8) -> Section
        ensures { result ≡ names_left count }
    {
        count.checked_sub(1).map_or(Section::Asks, Section::Name)
    }

    // So many asks are to come, and then nothing.
    pub(crate) fn asks_left(count: u8) -> Section
        ensures { result ≡ asks_left count }
    {
        count.checked_sub(1).map_or(Section::End, Section::Ask)
    }
}
