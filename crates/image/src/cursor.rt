// A place in the words of an image. Each call reads what stands there, and leaves the cursor behind
// it; after a refusal it may stand anywhere.
ghost use Rattle.std.specs.Prelude.{◌≡◌, ◌+◌, ◌<◌, ◌≤◌, length, Ok, IfOk};

use crate::counts::Counts;
use crate::limits::*;
use base::{Cause, Label, Refusal};

mod blocks;
mod channels;
mod record;
mod tables;

#[derive(Drop)]
pub(crate) struct Cursor<'a> {
    words: &'a [u32],
    at: usize,
    counts: Counts,
    ghost sized: { length words.now ≤ 8192 },
    ghost inside: { at ≤ length words.now },
    ghost few_types: { counts.types ≤ 64 },
    ghost few_blocks: { counts.blocks ≤ 128 },
    ghost few_tables: { counts.tables ≤ 128 },
}

impl<'a> Cursor<'a> {
    ghost use Rattle.image.specs.Cursor.{Reads};
    ghost use Rattle.image.specs.Readers.{count, number};
    ghost use Rattle.image.specs.Layout.{ended, header, label, over};
    ghost use Rattle.base.specs.Outcomes.{read_as};

    // The cursor behind the five counts in front.
    pub(crate) fn open(words: &'a [u32]) -> Result<Cursor<'a>, Refusal>
        ensures value { read_as (λ c. (c.counts, c.at)) result ≡ header words.now }
        ensures from { IfOk result (λ c. c.words.now ≡ words.now) }
    {
        if words.len() < HEADER || words.len() > MAX_WORDS {
            return Err(Cause::ImageSize.at(0));
        }
        let mut cursor = Cursor {
            words,
            at: 0,
            // The counts themselves ask for none.
            counts: Counts::default(),
        };
        let counts = Counts {
            types: cursor.count(0, MAX_TYPES)?,
            blocks: cursor.count(1, MAX_BLOCKS)?,
            tables: cursor.count(0, MAX_TABLES)?,
            names: cursor.count(0, MAX_NAMES)?,
        };
        let place = cursor.at;
        // No `From` leads from u32 to usize.
        if words[place] as usize != words.len() {
            return Err(Cause::ImageSize.at(place));
        }
        Ok(Cursor {
            words,
            at: place + 1,
            counts,
        })
    }

    // How many of each the image has.
    pub(crate) fn counts(&self) -> Counts
        ensures { result ≡ self.now.counts }
    {
        self.counts
    }

    // Refuses words that are left behind the last record.
    pub(crate) fn end(&self) -> Result<(), Refusal>
        ensures { result ≡ ended self.now.words.now (Ok (tt, self.now.at)) }
    {
        if self.at < self.words.len() {
            return Err(Cause::RecordEnd.at(self.at));
        }
        Ok(())
    }

    // A number from `low` on and below `limit`.
    fn number(&mut self, low: u32, limit: u64) -> Result<u32, Refusal>
        ensures value { Reads (λ _. number low limit) (λ w. w) self.old result self.new }
        ensures below { IfOk result (λ w. w < limit) }
        ensures on { IfOk result (λ _. self.new.at ≡ self.old.at + 1) }
    {
        let cut_off = Cause::RecordEnd.at(self.words.len());
        let number = *self.words.get(self.at).ok_or(cut_off)?;
        if number < low || u64::from(number) >= limit {
            return Err(Cause::NumberRange.at(self.at));
        }
        self.at += 1;
        Ok(number)
    }

    // A number from `low` to `most`.
    fn count(&mut self, low: u32, most: u32) -> Result<u32, Refusal>
        ensures value { Reads (λ _. count low most) (λ w. w) self.old result self.new }
        ensures few { IfOk result (λ w. w ≤ most) }
    {
        self.number(low, u64::from(most) + 1)
    }

    // A label that rises over the one before it.
    fn label(&mut self, before: Option<Label>) -> Result<Label, Refusal>
        ensures { Reads (λ _. label (over before)) (λ l. l) self.old result self.new }
    {
        let place = self.at;
        // A checked conversion would add an error that cannot come.
        let label = Label(self.number(0, u64::from(LABELS))? as u8);
        if before.is_some_and(|low| label <= low) {
            return Err(Cause::LabelOrder.at(place));
        }
        Ok(label)
    }
}
