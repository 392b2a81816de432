// Method tables.
ghost use Rattle.image.specs.Cursor.{Reads};
ghost use Rattle.image.specs.Layout.{many, table as «one_table»};
ghost use Rattle.image.specs.View.{seen_tables};

use super::Cursor;
use super::record::Record;
use crate::limits::*;
use crate::records::{Pair, TableRecord, TableRecords};
use base::{BlockId, Refusal};

// Its label rises over the one before it, and its block is one of those that the image has.
impl Record for Pair {
    ghost use Rattle.image.specs.Layout.{over, pair};
    ghost use Rattle.image.specs.declared.records.Pair as declared;
    ghost use Rattle.std.specs.Option.{option_map};
    ghost use Rattle.std.specs.Prelude.{ℕ};

    ghost Seen = { declared.Pair };

    ghost Left = { ℕ };

    ghost seen = { λ p. p };

    ghost left = { λ p. over (option_map (λ p. p.label) p) };

    ghost reader = { λ n low. pair n.blocks low };

    fn read(cursor: &mut Cursor<'_>, before: &[Pair]) -> Result<Pair, Refusal> {
        let label = cursor.label(before.last().map(|pair| pair.label))?;
        let block = cursor.number(0, u64::from(cursor.counts.blocks))?;
        // A checked conversion would add an error that cannot come.
        let block = BlockId(block as u8);
        Ok(Pair { label, block })
    }
}

impl Record for TableRecord {
    ghost use Rattle.image.specs.Layout as layout;
    ghost use Rattle.image.specs.View.{seen_table};

    ghost Seen = { layout.Table };

    ghost Left = { Unit {0} };

    ghost seen = { seen_table };

    ghost left = { λ _. tt };

    ghost reader = { λ n _. layout.table n.blocks };

    fn read(cursor: &mut Cursor<'_>, _before: &[TableRecord]) -> Result<TableRecord, Refusal> {
        let count = cursor.count(1, MAX_METHODS)?;
        let start = cursor.at;
        let pairs = cursor.records(count)?;
        Ok(TableRecord { start, pairs })
    }
}

impl Cursor<'_> {
    // All tables. This, `types` and `blocks` are one call of the one loop; each stays, since its
    // contract names another part of the format.
    pub(crate) fn tables(&mut self) -> Result<TableRecords, Refusal>
        ensures { Reads (λ n. many («one_table» n.blocks) n.tables) seen_tables self.old result self.new }
    {
        self.records(self.counts.tables)
    }
}
