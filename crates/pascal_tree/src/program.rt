//! Whole programs.
use crate::{Block, Stmt};
use dice_base::Text;
use sqlite_items::Items;

/// The tree of a whole program (ISO 7185:1990, 6.10), whether its items have names yet or not. Its own name is 1.
#[derive(Drop)]
pub struct Tree {
    pub ident: Text,
    /// The program parameters.
    pub files: Items<Text>,
    pub block: Block,
    /// The number after the last name that was given, or 0 where none was.
    pub next: u32,
}

/// A statement whose substatements are left out: each is an empty statement without a label and with the name 0.
#[derive(Drop)]
pub struct Header {
    pub stmt: Stmt,
}
