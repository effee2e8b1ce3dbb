//! The listing of a program, with the names of its items or without. Without them it is read back as the same program,
//! names aside. With them its first column has the names of the items. And which trees some text spells: the formed ones.
#![tactic(auto)]

mod print;
mod sources;

pub use print::{print_program, print_statement};
pub use sources::{formed_programs, formed_statements};
