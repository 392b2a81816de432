// The opcodes.
ghost use Rattle.image.specs.Opcodes.{form_of, opcode_word, shape};
ghost use Rattle.std.specs.Prelude.{◌≡◌, ◌≤◌, length, Some};

use crate::operand::Operand;
use base::Cause;

// Each case has the word that it is written as.
#[derive(Clone, Copy, PartialEq, Eq, Debug)]
pub(crate) enum Opcode {
    Int = 1,
    Truth = 2,
    Name = 3,
    Param = 4,
    Free = 5,
    Local = 6,
    New = 7,
    Op = 8,
    Send = 9,
    Object = 10,
    Make = 11,
    Choose = 12,
    Tell = 13,
    Ask = 14,
    Ret = 15,
}

impl Opcode {
    // What follows it: no operand, one, or two.
    pub(crate) fn operands(self) -> &'static [Operand]
        ensures value { Some result.now ≡ shape (form_of (opcode_word self)) }
        ensures few { length result.now ≤ 2 }
    {
        match self {
            Opcode::Int => &[Operand::Word],
            Opcode::Truth => &[Operand::Flag],
            Opcode::Name => &[Operand::NameNumber],
            Opcode::Param | Opcode::Free | Opcode::Local => &[Operand::Index],
            Opcode::New => &[Operand::ChannelType],
            Opcode::Op => &[Operand::OperatorNumber],
            Opcode::Send => &[Operand::LabelNumber, Operand::Arity],
            Opcode::Object => &[Operand::TableNumber],
            Opcode::Make => &[Operand::BlockNumber],
            Opcode::Choose => &[Operand::BlockNumber, Operand::BlockNumber],
            Opcode::Tell | Opcode::Ask | Opcode::Ret => &[],
        }
    }
}

impl TryFrom<u32> for Opcode {
    type Error = Cause;

    ghost use Rattle.image.specs.Opcodes.{opcode_from};

    ghost try_from_gives = { opcode_from };

    fn try_from(word: u32) -> Result<Opcode, Cause> {
        Ok(match word {
            1 => Opcode::Int,
            2 => Opcode::Truth,
            3 => Opcode::Name,
            4 => Opcode::Param,
            5 => Opcode::Free,
            6 => Opcode::Local,
            7 => Opcode::New,
            8 => Opcode::Op,
            9 => Opcode::Send,
            10 => Opcode::Object,
            11 => Opcode::Make,
            12 => Opcode::Choose,
            13 => Opcode::Tell,
            14 => Opcode::Ask,
            15 => Opcode::Ret,
            _ => return Err(Cause::Opcode),
        })
    }
}
