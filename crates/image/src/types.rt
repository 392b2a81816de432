// Type codes: the type of a value.
use crate::limits::FIRST_CHANNEL;

// A channel type of an image, counted from 0. Each kind of number is a type of its own, so that none
// stands for another by accident.
#[derive(Clone, Copy, PartialEq, Eq, Debug)]
pub struct TypeId(pub u8);

// Written 0, 1, 2, and 3 + k for the channel type k.
#[derive(Clone, Copy, PartialEq, Eq, Default, Debug)]
pub enum TypeCode {
    #[default]
    Integer,
    Truth,
    Name,
    Channel(TypeId),
}

impl From<u8> for TypeCode {
    ghost use Rattle.image.specs.Codes.{code_of};
    ghost use Rattle.std.specs.Prelude.{◌≡◌};

    ghost from_gives = { λ w c. c ≡ code_of w };

    fn from(word: u8) -> TypeCode {
        match word {
            0 => TypeCode::Integer,
            1 => TypeCode::Truth,
            2 => TypeCode::Name,
            _ => TypeCode::Channel(TypeId(word - FIRST_CHANNEL)),
        }
    }
}
