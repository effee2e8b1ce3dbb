//! Reads blocks, procedures and functions, and programs from the tokens that are left.
//!
//! What reads the bodies of blocks is a parameter (`ReadsBodies`), so nothing here knows statements. Each function
//! answers what the reading function that its contract names answers (`Readers` in specs/), and leaves the tokens that it
//! leaves. The laws in `proofs/` say that these readers read what the grammar spells, if the reader of bodies does.
#![tactic(auto)]

mod blocks;
mod bodies;
mod parts;
mod programs;

pub use blocks::routine;
pub use bodies::ReadsBodies;
pub use programs::program;
