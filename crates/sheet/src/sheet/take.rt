// Taking a line into a sheet.
ghost use Rattle.base.specs.Outcomes.{read_as};
ghost use Rattle.sheet.specs.Format.{ask, name};
ghost use Rattle.sheet.specs.Parts.{IsPart};
ghost use Rattle.sheet.specs.Sections.{Roomy, judged_line, moved};
ghost use Rattle.sheet.specs.Texts.{text_of};
ghost use Rattle.sheet.specs.View.{StandsIn, view};
ghost use Rattle.std.specs.Prelude.{◌≡◌, ℕ, List, IfOk, OnOk};

use super::Sheet;
use crate::line::{Key, Line};
use crate::number::read_number;
use crate::quote::QUOTE;
use crate::rest::{read_count, read_text};
use crate::section::Section;
use crate::text::Text;
use base::Cause;

impl<'a> Sheet<'a> {
    // A name that is not there yet.
    fn new_name(&self, rest: &'a [u8]) -> Result<Text<'a>, Cause>
        ensures value { read_as text_of result ≡ name (view self.now).names rest.now }
        ensures part { IfOk result (λ t. IsPart rest.now t.written.now) }
    {
        let name = read_text(rest)?;
        if self.find(&name).is_some() {
            return Err(Cause::NameTwice);
        }
        Ok(name)
    }

    // An ask: a quoted name, which stands for its number, or a number.
    fn answer(&self, rest: &[u8]) -> Result<i32, Cause>
        ensures { result ≡ ask (view self.now).names rest.now }
    {
        if !rest.starts_with(&[QUOTE]) {
            return read_number(rest).ok_or(Cause::BadNumber);
        }
        let name = read_text(rest)?;
        self.find(&name)
            .map(|n| i32::from(n.0))
            .ok_or(Cause::NameUnknown)
    }

    // Takes a line in by the section that is reached and the line's key, which are matched together
    // so that the order of the lines stands in one place; answers the section that comes next.
    pub(crate) fn take_line(&mut self, section: Section, line: &Line<'a>) -> Result<Section, Cause>
        requires { Roomy section (view self.old) }
        ensures says { moved result (view self.new) ≡ judged_line section line.now.key (view self.old) line.now.rest.now }
        ensures roomy { IfOk result (λ s. Roomy s (view self.new)) }
        ensures from { (bytes : List ℕ) → IsPart bytes line.now.rest.now → StandsIn bytes self.old → OnOk result (StandsIn bytes self.new) }
    {
        match (section, line.key) {
            (Section::Style, Key::Style) => {
                self.style = read_text(line.rest)?;
                Ok(Section::Names)
            }
            (Section::Names, Key::Names) => {
                let names = read_count(line.rest)?;
                Ok(Section::names_left(names))
            }
            (Section::Name(more), Key::Name) => {
                let name = self.new_name(line.rest)?;
                self.names.push(name);
                Ok(Section::names_left(more))
            }
            (Section::Asks, Key::Asks) => {
                let asks = read_count(line.rest)?;
                Ok(Section::asks_left(asks))
            }
            (Section::Ask(more), Key::Ask) => {
                let answer = self.answer(line.rest)?;
                self.asks.push(answer);
                Ok(Section::asks_left(more))
            }
            _ => Err(Cause::SheetLine),
        }
    }
}
