//! How tokens are read from left to right: the tokens that are left, readers of a value, and the laws that a reader
//! reads what a form of the grammar spells and stops where no spelling goes on.
//!
//! The readers stand in `specs/`, the laws in `proofs/`: one rule for each way to put readers and forms together, so a
//! grammar proves nothing but that its tables of first and following tokens fit. Nothing here knows a tree.
#![tactic(auto)]

pub mod classes;
mod cursor;
mod fault;
mod stop;
mod whole;

pub use cursor::Cursor;
pub use fault::ParseFault;
pub use stop::Stop;
pub use whole::read_all;
