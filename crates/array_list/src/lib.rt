// A list of at most N values that lie in an array, for what the formats bound: no memory is asked
// for. It rests on nothing. It promises that each call is said on the list of what it holds, and
// that a value past the N-th is not taken.
#![tactic(auto)]

mod list;

pub use list::ArrayVec;
