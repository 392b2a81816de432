// Blocks and their instructions.
ghost use Rattle.image.specs.Cursor.{Reads};
ghost use Rattle.image.specs.Layout.{after_block, block as «one_block», instruction as one_instruction, instructions, operand as one_operand};
ghost use Rattle.image.specs.Operands.{checked};
ghost use Rattle.image.specs.Readers.{chain, kept, passed};
ghost use Rattle.image.specs.View.{head, seen_block, seen_blocks};
ghost use Rattle.std.specs.Prelude.{◌-◌, ◌<◌, ◌≤◌, map, IfOk};

use super::Cursor;
use super::record::Record;
use crate::limits::*;
use crate::opcode::Opcode;
use crate::operand::Operand;
use crate::records::{BlockRecord, BlockRecords};
use base::{Cause, Refusal};

// Block 0 declares no values.
impl Record for BlockRecord {
    ghost use Rattle.image.specs.Layout.{block, most_behind};
    ghost use Rattle.image.specs.Readers.{kept};
    ghost use Rattle.image.specs.View.{Head, head, seen_block};
    ghost use Rattle.std.specs.Prelude.{ℕ};

    ghost Seen = { Head };

    ghost Left = { ℕ };

    ghost seen = { seen_block };

    ghost left = { most_behind };

    ghost reader = { λ n most words at. kept head (block n most words at) };

    fn read(cursor: &mut Cursor<'_>, before: &[BlockRecord]) -> Result<BlockRecord, Refusal> {
        let most = if before.is_empty() { 0 } else { MAX_VALUES };
        cursor.block(most)
    }
}

impl Cursor<'_> {
    // All blocks. This, `types` and `tables` are one call of the one loop; each stays, since its
    // contract names another part of the format.
    pub(crate) fn blocks(&mut self) -> Result<BlockRecords, Refusal>
        ensures { Reads (λ n words at. kept (map head) (chain («one_block» n) after_block 0 n.blocks words at)) seen_blocks self.old result self.new }
    {
        self.records(self.counts.blocks)
    }

    // A block that declares up to `most` parameters, and as many free values.
    fn block(&mut self, most: u32) -> Result<BlockRecord, Refusal>
        requires { most ≤ 8 }
        ensures { Reads (λ n words at. kept head («one_block» n most words at)) seen_block self.old result self.new }
    {
        let params = self.values(most)?;
        let free = self.values(most)?;
        let size = self.count(1, MAX_CODE)?;
        let start = self.at;
        // No `From` leads from u32 to usize.
        self.instructions(start + size as usize)?;
        Ok(BlockRecord {
            params,
            free,
            start,
        })
    }

    fn operand(&mut self, operand: Operand) -> Result<u32, Refusal>
        ensures value { Reads (λ n. one_operand n operand) (λ w. w) self.old result self.new }
        ensures on { IfOk result (λ _. self.old.at < self.new.at) }
    {
        self.number(operand.least(), operand.limit(self.counts))
    }

    // The operands behind an opcode.
    fn operands(&mut self, operands: &[Operand]) -> Result<(), Refusal>
        ensures value { Reads (λ n. checked n operands.now) (λ u. u) self.old result self.new }
        ensures on { IfOk result (λ _. self.old.at ≤ self.new.at) }
    {
        for &operand in operands {
            self.operand(operand)?;
        }
        Ok(())
    }

    // The instruction at a place of a block that ends at `end`. First all that concerns its opcode
    // is judged, then its operands.
    fn instruction(&mut self, end: usize) -> Result<(), Refusal>
        requires { self.old.at < end }
        ensures value { Reads (λ n. passed (one_instruction n end)) (λ u. u) self.old result self.new }
        ensures on { IfOk result (λ _. self.old.at < self.new.at) }
    {
        let at = self.at;
        let word = self.number(0, WORDS)?;
        let opcode = Opcode::try_from(word).map_err(|cause| cause.at(at))?;
        let operands = opcode.operands();
        let behind = at + 1 + operands.len();
        if behind > end || (behind == end) != (opcode == Opcode::Ret) {
            return Err(Cause::Opcode.at(at));
        }
        self.operands(operands)
    }

    // The instructions up to the block's end.
    fn instructions(&mut self, end: usize) -> Result<(), Refusal>
        requires { self.old.at ≤ end }
        ensures { Reads (λ n. passed (instructions n end (end - self.old.at))) (λ u. u) self.old result self.new }
    {
        while self.at < end {
            self.instruction(end)?;
        }
        Ok(())
    }
}
