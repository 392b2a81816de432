// Reading a sheet, line by line.
ghost use Rattle.base.specs.Outcomes.{read_as};
ghost use Rattle.sheet.specs.Format.{sheet_of, titled};
ghost use Rattle.sheet.specs.Lines.{SaysAgain};
ghost use Rattle.sheet.specs.View.{StandsIn, WellWritten, contents, view, written_names, written_style};
ghost use Rattle.sheet.specs.Written.{AcceptsExactly};
ghost use Rattle.std.specs.Prelude.{◌≡◌, [], IfOk, OnOk};

use super::Sheet;
use crate::line::Line;
use crate::section::Section;
use crate::text::Text;
use array_list::ArrayVec;
use base::{Cause, Refusal};

impl<'a> Sheet<'a> {
    // Reads a sheet: what it says, or the first broken rule and its line. It ends without `?`, which
    // clears and copies a whole sheet.
    pub fn read(bytes: &'a [u8]) -> Result<Sheet<'a>, Refusal>
        ensures value { contents result ≡ sheet_of bytes.now }
        ensures exactly { AcceptsExactly bytes.now }
        ensures from { IfOk result (StandsIn bytes.now) }
        ensures well { IfOk result WellWritten }
        ensures again { IfOk result SaysAgain }
    {
        let mut sheet = Sheet::empty();
        if let Err(refusal) = sheet.take_lines(bytes) {
            return Err(refusal);
        }
        Ok(sheet)
    }

    // Nothing is read yet.
    fn empty() -> Sheet<'a>
        ensures says { view result ≡ titled [] }
        ensures style { written_style result ≡ [] }
        ensures names { written_names result ≡ [] }
    {
        Sheet {
            style: Text::default(),
            names: ArrayVec::new(Text::default()),
            asks: ArrayVec::new(0),
        }
    }

    // Each line is judged as it is read, so the first that breaks a rule is the one refused.
    fn take_lines(&mut self, bytes: &'a [u8]) -> Result<(), Refusal>
        requires says { view self.old ≡ titled [] }
        requires style { written_style self.old ≡ [] }
        requires names { written_names self.old ≡ [] }
        ensures value { read_as (λ _. view self.new) result ≡ sheet_of bytes.now }
        ensures from { OnOk result (StandsIn bytes.now self.new) }
    {
        let mut section = Section::Style;
        let mut left = bytes;
        // The lines are counted by hand: the loop ends by its section, and not with the lines.
        let mut number = 1;
        while !section.is_last() {
            let line = Line::first(left).ok_or(Cause::SheetLine.at(number))?;
            section = self
                .take_line(section, &line)
                .map_err(|cause| cause.at(number))?;
            left = line.behind;
            number += 1;
        }
        if !left.is_empty() {
            return Err(Cause::SheetLine.at(number));
        }
        Ok(())
    }
}
