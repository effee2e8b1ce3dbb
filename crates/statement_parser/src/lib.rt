//! Reads statements, headers of statements and bodies of blocks from the tokens that are left.
//!
//! Each function answers what the reading function in its contract answers (`Readers` in specs/), and leaves the tokens
//! that it leaves. The laws in proofs/ (`StmtLevels`) say that this is what the grammar spells.
#![tactic(auto)]

mod parts;
mod stmts;

pub use stmts::{body, header, statement};
