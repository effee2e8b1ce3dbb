//! The names of the items of a program: given in the order of the text, and counted.
#![tactic(auto)]

mod counting;
mod naming;

pub use counting::new_names;
pub use naming::{name_stmt, number_program, number_routine, number_stmt};
