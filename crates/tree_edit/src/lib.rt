//! Edits of a named program.
//!
//! `specs/Edited` says what an edit gives, with its faults in order, and `specs/Place` how a statement is put in the place
//! at a path.
#![tactic(auto)]

mod blocks;
mod checks;
mod fault;
mod pairing;
mod place;
mod replacing;

pub use fault::EditFault;
pub use replacing::replace;
