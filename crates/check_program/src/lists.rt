//! What a program is resolved from, and what comes of it.
use check_decl::At;
use core_tree::{CoreBlock, CoreRoutine, ShapeTable};
use sqlite_items::Items;

/// A checked program: the place at its end, and its types as shapes.
#[derive(Drop)]
pub struct Source {
    pub end: At,
    pub shapes: ShapeTable,
}

/// The routines and the blocks of a program, in the order of the text.
#[derive(Drop)]
pub struct Lists {
    pub routines: Items<CoreRoutine>,
    pub blocks: Items<CoreBlock>,
}
