// Records that stand one behind another.
ghost use Rattle.array_list.specs.Items.{items};
ghost use Rattle.image.specs.Cursor.{Reads};
ghost use Rattle.image.specs.Readers.{Reader, chain, last_of};
ghost use Rattle.image.specs.declared.counts.Counts.{Counts};
ghost use Rattle.std.specs.Option.{option_map};
ghost use Rattle.std.specs.Prelude.{◌≤◌, Option, Some, None, map};

use super::Cursor;
use array_list::ArrayVec;
use base::Refusal;

// A record, or a part of one, that stands behind others of its kind. Its reader goes by what the one
// before it left, or by what none leaves.
pub(super) trait Record: Copy + Default {
    ghost Seen: { Type 0 };

    ghost Left: { Type 0 };

    ghost seen: { Self → Seen };

    ghost left: { Option Seen → Left };

    ghost reader: { Counts → Left → Reader Seen };

    // Reads the record that stands behind those before it.
    fn read(cursor: &mut Cursor<'_>, before: &[Self]) -> Result<Self, Refusal>
        ensures { Reads (λ n. reader n (left (option_map seen (last_of before.now)))) seen cursor.old result cursor.new };
}

impl Cursor<'_> {
    // So many records, one behind another.
    pub(super) fn records<T: Record, const N: usize>(
        &mut self,
        count: u32,
    ) -> Result<ArrayVec<T, N>, Refusal>
        requires { count ≤ N }
        ensures { Reads (λ n. chain (T.reader n) (λ _ r. T.left (Some r)) (T.left None) count) (λ v. map T.seen (items v)) self.old result self.new }
    {
        let mut records = ArrayVec::default();
        for _i in 0..count {
            let record = T::read(self, records.as_slice())?;
            records.push(record);
        }
        Ok(records)
    }
}
