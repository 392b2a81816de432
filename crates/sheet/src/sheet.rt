// A sheet that was read: it keeps its texts where they stand in the bytes.
use crate::text::Text;
use array_list::ArrayVec;

mod query;
mod read;
mod take;
mod write;

// At most 128 names, and as many asks: bounded lists, since no call here asks for memory.
const MOST: usize = 128;

#[derive(Drop)]
pub struct Sheet<'a> {
    // Empty until its line is read. No `Option`: a caller never sees a sheet without its style.
    style: Text<'a>,
    names: ArrayVec<Text<'a>, MOST>,
    asks: ArrayVec<i32, MOST>,
}
