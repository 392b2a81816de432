// One type for each kind of number, so that none stands for another by accident. One generic type
// would want a marker type for each kind beside it, and say no more.

// One of the 256 cells of a store.
#[derive(Clone, Copy, PartialEq, Eq, Debug)]
pub struct CellId(pub u8);

// One of the 256 channel places of a store.
#[derive(Clone, Copy, PartialEq, Eq, Debug)]
pub struct ChannelId(pub u8);

// The name of a method in a channel type, a method table or a message.
#[derive(Clone, Copy, PartialEq, Eq, PartialOrd, Ord, Default, Debug)]
pub struct Label(pub u8);

// A block of an image, counted from 0.
#[derive(Clone, Copy, PartialEq, Eq, Default, Debug)]
pub struct BlockId(pub u8);

// A method table of an image, counted from 0.
#[derive(Clone, Copy, PartialEq, Eq, Debug)]
pub struct TableId(pub u8);

// A name of a sheet, counted from 0 in the order of its lines.
#[derive(Clone, Copy, PartialEq, Eq, Debug)]
pub struct NameId(pub u8);
