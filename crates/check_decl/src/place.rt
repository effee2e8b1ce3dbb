//! What is known on the way through the items of a program.
use check_rules::{Region, Typing, WrittenType};
use dice_base::{Name, Text};
use sqlite_items::Items;

/// A variable of a layout, with its first word.
#[derive(Drop)]
pub struct Row {
    pub ident: Text,
    pub typing: Typing,
    pub offset: u32,
    pub by_place: bool,
}

/// The result, the parameters and the variables of a routine or of the program, with all their words, counted up to
/// `MAX_COUNTED`.
#[derive(Drop)]
pub struct Layout {
    pub owner: Name,
    pub level: u32,
    pub rows: Items<Row>,
    pub words: u32,
}

/// Whose block it is, its level, and the functions that may be assigned in it.
#[derive(Drop)]
pub struct Owner {
    pub name: Name,
    pub level: u32,
    pub functions: Items<Name>,
}

/// The block of a routine that was judged whole: its owner, and all that it declares.
#[derive(Drop)]
pub struct BodyPlace {
    pub owner: Owner,
    pub region: Region,
}

/// What later items see of all before them: the table of types, the types of pointer domains, the variables that
/// routines change, each by its owner and its identifier, layouts in the order of the text, and the blocks of routines
/// in the order of their ends.
#[derive(Drop)]
pub struct Known {
    pub table: Items<WrittenType>,
    pub domains: Items<(Name, Typing)>,
    pub changed: Items<(u32, Text)>,
    pub layouts: Items<Layout>,
    pub places: Items<BodyPlace>,
}

/// A place in a block: what is known, the block's region, and the rows and words of its owner so far.
#[derive(Drop)]
pub struct At {
    pub known: Known,
    pub block: Region,
    pub rows: Items<Row>,
    pub words: u32,
}
