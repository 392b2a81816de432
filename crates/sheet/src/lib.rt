// The name sheet of a style: its style, its names and the answers that a run will ask for. It rests
// on base, lines and array_list. It promises that a sheet is accepted exactly when its bytes
// are the written form of some sheet, that a refusal is the first broken rule at its line, and that
// quoted names go round trip.
#![tactic(auto)]

mod line;
mod number;
mod quote;
mod rest;
mod section;
mod sheet;
mod text;

pub use quote::{read_quoted, write_quoted};
pub use sheet::Sheet;
