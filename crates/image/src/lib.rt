// Images of programs: the layout reader and the instruction decoder. It rests on base and array_list.
// It promises that an image is read exactly when its words are the encoding of some structure
// within the format's bounds, that a refusal is the first broken rule at its word, and that an
// instruction is decoded exactly where its encoding stands.
#![tactic(auto)]

mod bytes;
mod counts;
mod cursor;
mod decoder;
mod image;
mod instruction;
mod limits;
mod opcode;
mod operand;
mod records;
mod types;

pub use bytes::{Words, words_of};
pub use counts::Counts;
pub use decoder::decode;
pub use image::{Image, read};
pub use instruction::{Instruction, Operator};
pub use records::{BlockRecord, Method, Pair, Pairs, TableRecord, TypeCodes, TypeRecord};
pub use types::{TypeCode, TypeId};
