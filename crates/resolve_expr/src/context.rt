//! Where an expression stands, and what is kept of it.
use check_rules::{Host, Typing};
use core_tree::CoreExpr;
use dice_base::Name;
use expression_rules::Env;
use sqlite_items::Items;

/// The program or a routine, with its level, 0 for the program, and the words of its result, parameters and variables.
#[derive(Clone, Copy)]
pub struct OwnerWords {
    pub owner: Name,
    pub level: u32,
    pub words: u32,
}

/// What stands around a statement whose expressions are resolved.
#[derive(Drop)]
pub struct Context {
    pub env: Env,
    /// The level of its routine, 0 for the program's body.
    pub level: u32,
    /// All whose variables may be used.
    pub owners: Items<OwnerWords>,
}

/// A resolved expression: the words of code of all its operations, counted up to 1,000,000, and its tree where they are
/// no more than a block has, which is `MAX_BLOCK_WORDS`. So no tree is deeper than a block has words.
#[derive(Drop)]
pub struct Kept {
    pub charge: u32,
    pub expr: Option<CoreExpr>,
}

/// The parts of an operation, kept likewise.
#[derive(Drop)]
pub struct KeptParts {
    pub charge: u32,
    pub exprs: Option<Items<CoreExpr>>,
}

/// The most words of code that a block has.
pub const MAX_BLOCK_WORDS: u32 = 512;

/// A place or a value that is resolved: its type, and what is kept of the operation that gives it.
#[derive(Drop)]
pub struct KeptNode {
    pub typing: Typing,
    pub kept: Kept,
}

/// Members that were put into a set, kept likewise: the host of the set's base, told by the first of them, and the set.
#[derive(Drop)]
pub struct KeptCollected {
    pub base: Option<Host>,
    pub set: Kept,
}
