// The lines that the program prints, one line to a call, so that the program needs a buffer for one
// line only. It rests on base and lines. It promises how many lines there are, which line each
// number means, that a number past the last line writes nothing, and that a line that does not fit
// is refused.
#![tactic(auto)]

mod refusals;

pub use refusals::{refusal_line_count, write_refusal_line};
