// Instructions and their operands.
use crate::types::TypeId;
use base::{BlockId, Cause, Label, NameId, TableId};

// What op does with the values on top of the stack. Written 0 to 10, in this order.
#[derive(Clone, Copy, PartialEq, Eq, Debug)]
pub enum Operator {
    Sum,
    Difference,
    Product,
    Quotient,
    Remainder,
    Negation,
    Less,
    Equal,
    And,
    Or,
    Not,
}

impl TryFrom<u32> for Operator {
    type Error = Cause;

    ghost use Rattle.image.specs.Codes.{operator_from};

    ghost try_from_gives = { operator_from };

    fn try_from(word: u32) -> Result<Operator, Cause> {
        Ok(match word {
            0 => Operator::Sum,
            1 => Operator::Difference,
            2 => Operator::Product,
            3 => Operator::Quotient,
            4 => Operator::Remainder,
            5 => Operator::Negation,
            6 => Operator::Less,
            7 => Operator::Equal,
            8 => Operator::And,
            9 => Operator::Or,
            10 => Operator::Not,
            _ => return Err(Cause::NumberRange),
        })
    }
}

// The fifteen instructions. Their opcodes are 1 to 15, in this order.
#[derive(Clone, Copy, PartialEq, Eq, Debug)]
pub enum Instruction {
    // Constants.
    Int(i32),
    Truth(bool),
    Name(NameId),
    // Copies of a parameter, a free value or a local, by its index.
    Param(u8),
    Free(u8),
    Local(u8),
    // A new channel of this type, as the next local.
    New(TypeId),
    Op(Operator),
    // A message: its label, and how many values it carries.
    Send(Label, u8),
    Object(TableId),
    // A thread of this block.
    Make(BlockId),
    // A thread of the first block on true, of the second on false.
    Choose(BlockId, BlockId),
    Tell,
    Ask,
    Ret,
}
