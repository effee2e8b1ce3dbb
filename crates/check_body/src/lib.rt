//! Statements, judged (ISO 7185:1990, 6.8): the least kind of fault that each statement of a body has by its own text, and
//! the variables that the body changes.
//!
//! In `specs/`: a rule for each form of statement (`StatementRules`), their fold over the tree (`Statements`), and the same
//! rules in the steps that the code takes (`Steps`). The code gives the same judgements, in the order of the text.
#![tactic(auto)]

mod assign;
mod calls;
mod cases;
mod changes;
mod control;
mod heap;
mod kinds;
mod opening;
mod own;
mod reach;
mod transfers;

pub use changes::push_changes;
pub use kinds::{StatementKind, first_fault, push_kinds};
pub use own::own_kind;
