//! Which programs can be compiled and run: their identifiers are resolved here.
//!
//! A simple program declares integer variables alone, and its statements are compound and empty ones, assignments and
//! `writeln`, over operands and sums of two.
#![tactic(auto)]

mod operands;
mod program;
mod statements;

pub use program::{SimpleProgram, resolve_program};
