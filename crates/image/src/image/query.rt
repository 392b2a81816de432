// What an image answers. A number past the end answers none.
ghost use Rattle.image.specs.View.{counted, declares, instruction_at, seen_block, seen_table, seen_type, source};
ghost use Rattle.std.specs.Option.{option_map};
ghost use Rattle.std.specs.List.{slice_get};
ghost use Rattle.std.specs.Prelude.{◌≡◌};

use super::Image;
use crate::counts::Counts;
use crate::decoder::decode;
use crate::instruction::Instruction;
use crate::records::{BlockRecord, TableRecord, TypeRecord};
use crate::types::TypeId;
use base::{BlockId, TableId};

impl<'a> Image<'a> {
    // The words that it was read from.
    pub fn words(&self) -> &'a [u32]
        ensures { result.now ≡ source self.now }
    {
        self.words
    }

    // How many channel types, blocks, tables and names there are.
    pub fn counts(&self) -> Counts
        ensures { result ≡ counted (declares self.now) }
    {
        // A checked conversion would add an error that cannot come.
        Counts {
            types: self.types.len() as u32,
            blocks: self.blocks.len() as u32,
            tables: self.tables.len() as u32,
            names: self.names,
        }
    }

    // A channel type. This, `block` and `table` are one call each; one function for the three
    // would want a trait of the numbers that they take.
    pub fn type_record(&self, id: TypeId) -> Option<&TypeRecord>
        ensures { option_map (λ t. seen_type t.now) result ≡ slice_get (declares self.now).types id.0 }
    {
        self.types.get(usize::from(id.0))
    }

    // What a block declares.
    pub fn block(&self, id: BlockId) -> Option<&BlockRecord>
        ensures { option_map (λ b. seen_block b.now) result ≡ slice_get (declares self.now).blocks id.0 }
    {
        self.blocks.get(usize::from(id.0))
    }

    // A method table.
    pub fn table(&self, id: TableId) -> Option<&TableRecord>
        ensures { option_map (λ t. seen_table t.now) result ≡ slice_get (declares self.now).tables id.0 }
    {
        self.tables.get(usize::from(id.0))
    }

    // The instruction whose opcode stands at a word, and the word behind it: users name a place of an
    // image by its word.
    pub fn instruction(&self, at: usize) -> Option<(Instruction, usize)>
        ensures { result ≡ instruction_at (source self.now) at }
    {
        let (instruction, rest) = decode(self.words.get(at..)?)?;
        Some((instruction, self.words.len() - rest.len()))
    }
}
