//! Cuts a text into tokens.
#![tactic(auto)]

mod comment;
mod cut;
mod fault;
mod front;
mod limits;
mod sign;
mod string;

pub use cut::scan;
pub use fault::ScanFault;
pub use limits::MAX_TEXT_BYTES;
