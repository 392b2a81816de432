// Lines of output, written into the front of a lent buffer. It rests on base and itoa. It promises
// which bytes are written, that the rest of the buffer stays as it was, and that a line that does
// not fit is refused and changes nothing.
#![tactic(auto)]

mod line;

pub use itoa::Integer;
pub use line::{write_number_line, write_text_line};
