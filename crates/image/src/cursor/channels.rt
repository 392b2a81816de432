// Type records: the channel types of an image.
ghost use Rattle.array_list.specs.Items.{items};
ghost use Rattle.image.specs.Cursor.{Reads};
ghost use Rattle.image.specs.Layout.{many, type_record, values};
ghost use Rattle.image.specs.View.{seen_types};
ghost use Rattle.std.specs.Prelude.{◌≤◌};

use super::Cursor;
use super::record::Record;
use crate::limits::*;
use crate::records::{Method, TypeCodes, TypeRecord, TypeRecords};
use crate::types::TypeCode;
use base::Refusal;

// One of the types that the image has.
impl Record for TypeCode {
    ghost use Rattle.image.specs.Layout.{code};
    ghost use Rattle.image.specs.declared.types.TypeCode as declared;

    ghost Seen = { declared.TypeCode };

    ghost Left = { Unit {0} };

    ghost seen = { λ c. c };

    ghost left = { λ _. tt };

    ghost reader = { λ n _. code n.types };

    fn read(cursor: &mut Cursor<'_>, _before: &[TypeCode]) -> Result<TypeCode, Refusal> {
        // A checked conversion would add an error that cannot come.
        Ok(TypeCode::from(cursor.number(0, cursor.counts.codes())? as u8))
    }
}

// Its label rises over the one before it.
impl Record for Method {
    ghost use Rattle.image.specs.Layout as layout;
    ghost use Rattle.image.specs.View.{seen_method};
    ghost use Rattle.std.specs.Option.{option_map};
    ghost use Rattle.std.specs.Prelude.{ℕ};

    ghost Seen = { layout.Method };

    ghost Left = { ℕ };

    ghost seen = { seen_method };

    ghost left = { λ m. layout.over (option_map (λ m. m.label) m) };

    ghost reader = { λ n low. layout.method n.types low };

    fn read(cursor: &mut Cursor<'_>, before: &[Method]) -> Result<Method, Refusal> {
        let label = cursor.label(before.last().map(|method| method.label))?;
        let codes = cursor.values(MAX_VALUES)?;
        Ok(Method { label, codes })
    }
}

impl Record for TypeRecord {
    ghost use Rattle.image.specs.Layout as layout;
    ghost use Rattle.image.specs.View.{seen_type};
    ghost use Rattle.std.specs.Prelude.{List};

    ghost Seen = { List layout.Method };

    ghost Left = { Unit {0} };

    ghost seen = { seen_type };

    ghost left = { λ _. tt };

    ghost reader = { λ n _. layout.type_record n.types };

    fn read(cursor: &mut Cursor<'_>, _before: &[TypeRecord]) -> Result<TypeRecord, Refusal> {
        let count = cursor.count(0, MAX_METHODS)?;
        cursor.records(count)
    }
}

impl Cursor<'_> {
    // A number of values, at most `most`, and their types.
    pub(super) fn values(&mut self, most: u32) -> Result<TypeCodes, Refusal>
        requires { most ≤ 8 }
        ensures { Reads (λ n. values n.types most) items self.old result self.new }
    {
        let count = self.count(0, most)?;
        self.records(count)
    }

    // All channel types. This, `blocks` and `tables` are one call of the one loop; each stays, since
    // its contract names another part of the format.
    pub(crate) fn types(&mut self) -> Result<TypeRecords, Refusal>
        ensures { Reads (λ n. many (type_record n.types) n.types) seen_types self.old result self.new }
    {
        self.records(self.counts.types)
    }
}
