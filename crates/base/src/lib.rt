// The words that all crates share: a type of its own for each kind of number, and what a refused
// call answers. It rests on nothing. It promises that each cause of a refusal has the number and
// the layer that one table in specs/ assigns to it, and how a refusal is printed.
#![tactic(auto)]

mod ids;
mod refusal;

pub use ids::{BlockId, CellId, ChannelId, Label, NameId, TableId};
pub use refusal::{Cause, Layer, Refusal};
