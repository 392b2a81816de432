// How many of each an image has.
ghost use Rattle.std.specs.Prelude.{◌≡◌, ◌+◌};

use crate::limits::FIRST_CHANNEL;

#[derive(Clone, Copy, PartialEq, Eq, Default, Debug)]
pub struct Counts {
    pub types: u32,
    pub blocks: u32,
    pub tables: u32,
    pub names: u32,
}

impl Counts {
    // Type codes are below it.
    pub(crate) fn codes(self) -> u64
        ensures { result ≡ self.types + 3 }
    {
        u64::from(self.types) + u64::from(FIRST_CHANNEL)
    }
}
