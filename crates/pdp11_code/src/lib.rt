//! The instructions of the PDP-11/40 read from words and written as words.
#![tactic(auto)]

mod instr;
mod reading;
mod table;
mod writing;

pub use instr::{Ea, Instr};
pub use reading::decode;
pub use table::{ROWS, Row, Shape};
pub use writing::encode;
