// The records of an image as they are kept in memory.
use crate::limits::*;
use crate::types::TypeCode;
use array_list::ArrayVec;
use base::{BlockId, Label};

// How many a list may hold. Lists are of a fixed size, since libraries ask for no memory.
const VALUES: usize = MAX_VALUES as usize;

const METHODS: usize = MAX_METHODS as usize;

const TYPES: usize = MAX_TYPES as usize;

const BLOCKS: usize = MAX_BLOCKS as usize;

const TABLES: usize = MAX_TABLES as usize;

// The types of up to eight values.
pub type TypeCodes = ArrayVec<TypeCode, VALUES>;

// A method of a channel type.
#[derive(Clone, Copy, Default)]
pub struct Method {
    pub label: Label,
    pub codes: TypeCodes,
}

// A channel type: up to 16 methods, their labels rising.
pub type TypeRecord = ArrayVec<Method, METHODS>;

// What a block declares, and the word where its code begins: users name a place of an image by its
// word.
#[derive(Clone, Copy, Default)]
pub struct BlockRecord {
    pub params: TypeCodes,
    pub free: TypeCodes,
    pub start: usize,
}

// A label of a method table, and the block that serves it.
#[derive(Clone, Copy, Default)]
pub struct Pair {
    pub label: Label,
    pub block: BlockId,
}

// Up to 16 pairs, their labels rising.
pub type Pairs = ArrayVec<Pair, METHODS>;

// A method table, and the word where its first pair begins.
#[derive(Clone, Copy, Default)]
pub struct TableRecord {
    pub start: usize,
    pub pairs: Pairs,
}

// All records of a kind.
pub(crate) type TypeRecords = ArrayVec<TypeRecord, TYPES>;

pub(crate) type BlockRecords = ArrayVec<BlockRecord, BLOCKS>;

pub(crate) type TableRecords = ArrayVec<TableRecord, TABLES>;
