//! What a tree must meet beside its grammar's productions: few levels, and each `else` behind its own `if`.
//!
//! The definitions are those of pascal_tree, `Depth` and `Openness`. Nothing here takes memory or changes a tree.
#![tactic(auto)]

mod depth;
mod pairing;
mod stmt_levels;

pub use pairing::{
    are_arms_paired, are_paired, are_routines_paired, is_block_paired, is_paired, is_routine_paired,
};
pub use stmt_levels::stmt_depth;
