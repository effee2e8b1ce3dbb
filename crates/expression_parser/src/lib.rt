//! Reads expressions, accesses and arguments from the tokens that are left.
//!
//! Each function answers what the reader of its name answers (`Readers` in specs/), and leaves the tokens that it leaves.
//! In `proofs/` stand the laws that tie these readers to the grammar: `ExprRules` has one rule for each of them, and
//! `ExprLevels` has the laws for every number of levels.
#![tactic(auto)]

mod exprs;
mod operators;

pub use exprs::{access, access_rest, args, expr, inner_expr};
