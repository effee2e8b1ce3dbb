//! The lines of a script, read one by one from a source.
#![tactic(auto)]

mod line;

pub use line::{Got, LineFault, next_line, stripped};
