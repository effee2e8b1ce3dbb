//! The plain Pascal machine: what programs mean, with no target in sight.
//!
//! The machine itself is a definition, in `specs/`: states (`State`), one step (`Step`) and runs (`Run`). Its code is
//! the forms that it is defined over, and their charges.
#![tactic(auto)]

mod charges;
mod form;
mod limits;

pub use charges::{PROGRAM_CHARGE, charge, code_words};
pub use form::{Operand, SimpleForm, Statement, Sum};
pub use limits::{GLOBAL_WORDS, MAX_PROGRAM_WORDS};
