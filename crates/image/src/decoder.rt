// One instruction from the front of some words.
ghost use Rattle.image.specs.Encoded.{Decodes};
ghost use Rattle.image.specs.Opcodes.{decoded, filled, form_of, opcode_word, taken_if};
ghost use Rattle.std.specs.Option.{option_map};
ghost use Rattle.std.specs.Prelude.{◌≡◌, ◌≤◌, nat_lt};

use crate::instruction::{Instruction, Operator};
use crate::limits::*;
use crate::opcode::Opcode;
use crate::types::TypeId;
use base::{BlockId, Label, NameId, TableId};

// The first instruction of the words, and the words behind it. None where no instruction is written
// there: an unknown opcode, too few words, or an operand that no image may have.
pub fn decode(words: &[u32]) -> Option<(Instruction, &[u32])>
    ensures value { option_map (λ p. (p.0, p.1.now)) result ≡ decoded words.now }
    ensures exactly { Decodes words.now }
{
    let (opcode, operands) = words.split_first()?;
    instruction(Opcode::try_from(*opcode).ok()?, operands)
}

// The operands as those of an instruction with this opcode, and the rest.
fn instruction(opcode: Opcode, operands: &[u32]) -> Option<(Instruction, &[u32])>
    ensures { option_map (λ p. (p.0, p.1.now)) result ≡ filled (form_of (opcode_word opcode)) operands.now }
{
    Some(match (opcode, operands) {
        (Opcode::Int, [w, rest @ ..]) => (Instruction::Int(w.cast_signed()), rest),
        (Opcode::Truth, [b, rest @ ..]) => (Instruction::Truth(below(*b, FLAGS)? == 1), rest),
        (Opcode::Name, [n, rest @ ..]) => (Instruction::Name(NameId(below(*n, MAX_NAMES)?)), rest),
        (Opcode::Param, [i, rest @ ..]) => (Instruction::Param(below(*i, INDICES)?), rest),
        (Opcode::Free, [i, rest @ ..]) => (Instruction::Free(below(*i, INDICES)?), rest),
        (Opcode::Local, [i, rest @ ..]) => (Instruction::Local(below(*i, INDICES)?), rest),
        (Opcode::New, [t, rest @ ..]) => (
            Instruction::New(TypeId(below(t.checked_sub(u32::from(FIRST_CHANNEL))?, MAX_TYPES)?)),
            rest,
        ),
        (Opcode::Op, [o, rest @ ..]) => (Instruction::Op(Operator::try_from(*o).ok()?), rest),
        (Opcode::Send, [l, a, rest @ ..]) => (
            Instruction::Send(Label(below(*l, LABELS)?), below(*a, MAX_VALUES + 1)?),
            rest,
        ),
        (Opcode::Object, [t, rest @ ..]) => (
            Instruction::Object(TableId(below(*t, MAX_TABLES)?)),
            rest,
        ),
        (Opcode::Make, [b, rest @ ..]) => (Instruction::Make(block(*b)?), rest),
        (Opcode::Choose, [b, c, rest @ ..]) => (Instruction::Choose(block(*b)?, block(*c)?), rest),
        (Opcode::Tell, rest) => (Instruction::Tell, rest),
        (Opcode::Ask, rest) => (Instruction::Ask, rest),
        (Opcode::Ret, rest) => (Instruction::Ret, rest),
        _ => return None,
    })
}

// The word as a byte, where it is below the limit.
fn below(word: u32, limit: u32) -> Option<u8>
    requires { limit ≤ 256 }
    ensures { result ≡ taken_if (nat_lt word limit) word }
{
    u8::try_from(word).ok().filter(|_| word < limit)
}

// The block of a word, where an image may have as many.
fn block(word: u32) -> Option<BlockId>
    ensures { result ≡ taken_if (nat_lt word 128) (record { 0 = word }) }
{
    Some(BlockId(below(word, MAX_BLOCKS)?))
}
