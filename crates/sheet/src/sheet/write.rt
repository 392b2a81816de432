// Writing a sheet back, line by line.
ghost use Rattle.lines.specs.Overlay.{Writes};
ghost use Rattle.sheet.specs.Lines.{asked_lines_of, lines_of, name_lines_of};
ghost use Rattle.std.specs.Prelude.{◌≡◌, ◌≤◌, [], ◌++◌, length, slice_index_or};

use super::Sheet;
use base::Refusal;
use lines::{write_number_line, write_text_line};

// The lines in front of the names, and the one between names and asks.
const HEAD_LINES: usize = 2;

const COUNT_LINES: usize = 1;

impl Sheet<'_> {
    // How many lines the sheet has.
    pub fn line_count(&self) -> usize
        ensures value { result ≡ length (lines_of self.now) }
        ensures few { result ≤ 259 }
    {
        HEAD_LINES + self.name_count() + COUNT_LINES + self.asks().len()
    }

    // Writes the k-th line into the front of the tail, and answers how many bytes it took; past
    // the last line it writes none. Every ask is written as its number. A line is asked for by its
    // number, so that a caller needs a buffer for one line only.
    pub fn write_line(&self, tail: &mut [u8], k: usize) -> Result<usize, Refusal>
        ensures { Writes tail.old tail.new (slice_index_or (lines_of self.now) k []) result }
    {
        match k {
            0 => write_text_line(tail, b"style=", self.style()),
            1 => write_number_line(tail, b"names=", self.name_count()),
            _ => self.write_listed(tail, k - HEAD_LINES),
        }
    }

    // The lines behind the count of names.
    fn write_listed(&self, tail: &mut [u8], i: usize) -> Result<usize, Refusal>
        ensures { Writes tail.old tail.new (slice_index_or (name_lines_of self.now ++ asked_lines_of self.now) i []) result }
    {
        match self.names.as_slice().get(i) {
            Some(name) => write_text_line(tail, b"name=", name.written),
            None => self.write_asked(tail, i - self.names.len()),
        }
    }

    // The count of asks and the lines behind it.
    fn write_asked(&self, tail: &mut [u8], i: usize) -> Result<usize, Refusal>
        ensures { Writes tail.old tail.new (slice_index_or (asked_lines_of self.now) i []) result }
    {
        if i == 0 {
            return write_number_line(tail, b"asks=", self.asks.len());
        }
        match self.asks.as_slice().get(i - COUNT_LINES) {
            Some(answer) => write_number_line(tail, b"ask=", *answer),
            None => Ok(0),
        }
    }
}
