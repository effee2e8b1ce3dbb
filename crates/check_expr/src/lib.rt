//! Whole expressions and accesses, judged (ISO 7185:1990, 6.5 and 6.7): their types, the least kind of fault in them,
//! and what they pass as variable arguments.
//!
//! The code gives the judgements that `expression_rules` defines. In `specs/`: what an access is known to be by its
//! place, and which access an expression is (`Reaching`); the same rules in the steps that the code takes (`Steps`).
#![tactic(auto)]

mod accesses;
mod arguments;
mod expressions;
mod functions;
mod sets;

pub use accesses::access_in;
pub use arguments::{change_at, change_of, is_file};
pub use expressions::{
    all_notes, argument_notes, arguments_notes, judgement_of, place_of, refused_width, width_notes,
};
