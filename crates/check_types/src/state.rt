//! What is known while types are read.
use check_rules::{FieldType, Region, Typing, WrittenType};
use sqlite_items::Items;

/// The types written so far, and the region of the block that they stand in.
#[derive(Drop)]
pub struct TypeState {
    pub table: Items<WrittenType>,
    pub block: Region,
}

/// A type that was read, and the least kind of fault in it.
#[derive(Clone, Copy)]
pub struct Typed {
    pub typing: Typing,
    pub kind: u8,
}

/// A record type that is being read: the region of its fields, those so far with their words, whether all their types
/// are known, and the least kind of fault.
#[derive(Drop)]
pub struct RecordWalk {
    pub own: Region,
    pub parts: Items<FieldType>,
    pub words: u32,
    pub known: bool,
    pub kind: u8,
}
