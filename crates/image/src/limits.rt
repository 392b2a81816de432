// The largest numbers that the format has.
// Words are below it.
pub(crate) const WORDS: u64 = 1 << 32;
// Words of an image.
pub(crate) const MAX_WORDS: usize = 8192;
// The five counts in front.
pub(crate) const HEADER: usize = 5;

pub(crate) const MAX_TYPES: u32 = 64;

pub(crate) const MAX_BLOCKS: u32 = 128;

pub(crate) const MAX_TABLES: u32 = 128;

pub(crate) const MAX_NAMES: u32 = 128;
// Methods of a channel type, and pairs of a table.
pub(crate) const MAX_METHODS: u32 = 16;
// Values of a message, parameters and free values of a block.
pub(crate) const MAX_VALUES: u32 = 8;
// Instruction words of a block.
pub(crate) const MAX_CODE: u32 = 1024;
// Labels are below it.
pub(crate) const LABELS: u32 = 256;
// Indices of parameters, free values and locals are below it.
pub(crate) const INDICES: u32 = 16;
// A truth is below it.
pub(crate) const FLAGS: u32 = 2;
// Operators are below it.
pub(crate) const OPERATORS: u32 = 11;
// Codes of channel types begin here.
pub(crate) const FIRST_CHANNEL: u8 = 3;
