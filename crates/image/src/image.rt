// An image that was read: it borrows the words and keeps what its records declare and where its code
// lies.
use crate::records::{BlockRecords, TableRecords, TypeRecords};

mod layout;
mod query;

pub use layout::read;

#[derive(Drop)]
pub struct Image<'a> {
    words: &'a [u32],
    types: TypeRecords,
    blocks: BlockRecords,
    tables: TableRecords,
    names: u32,
}
