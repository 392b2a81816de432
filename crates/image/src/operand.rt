// What stands behind an opcode.
ghost use Rattle.image.specs.Opcodes.{least, limit};
ghost use Rattle.std.specs.Prelude.{◌≡◌};

use crate::counts::Counts;
use crate::limits::*;

// The kind of an operand, which fixes its range.
#[derive(Clone, Copy)]
pub(crate) enum Operand {
    // any word
    Word,
    // 0 or 1
    Flag,
    NameNumber,
    // of a parameter, a free value or a local
    Index,
    // the code of a channel type
    ChannelType,
    OperatorNumber,
    LabelNumber,
    Arity,
    TableNumber,
    BlockNumber,
}

impl Operand {
    // The least value.
    pub(crate) fn least(self) -> u32
        ensures { result ≡ least self }
    {
        match self {
            Operand::ChannelType => u32::from(FIRST_CHANNEL),
            _ => 0,
        }
    }

    // Values are below it; names, channel types, tables and blocks are those of the image.
    pub(crate) fn limit(self, counts: Counts) -> u64
        ensures { result ≡ limit counts self }
    {
        match self {
            Operand::Word => WORDS,
            Operand::Flag => u64::from(FLAGS),
            Operand::NameNumber => u64::from(counts.names),
            Operand::Index => u64::from(INDICES),
            Operand::ChannelType => counts.codes(),
            Operand::OperatorNumber => u64::from(OPERATORS),
            Operand::LabelNumber => u64::from(LABELS),
            Operand::Arity => u64::from(MAX_VALUES) + 1,
            Operand::TableNumber => u64::from(counts.tables),
            Operand::BlockNumber => u64::from(counts.blocks),
        }
    }
}
