//! Statements without their identifiers: what each does by its own text (ISO 7185:1990, 6.8 and 6.9).
//!
//! In `specs/`: a rule for each form of statement (`Forms`), and their fold over the tree (`Statements`). Of a form only as
//! much is kept as a block can have, with the whole count of its words of code.
#![tactic(auto)]

mod assign;
mod blocks;
mod calls;
mod control;
mod entries;
mod form;
mod labels;
mod limits;
mod parts;
mod place;
mod sizes;
mod statements;
mod table;

pub use assign::{assign_form, target_node, value_form};
pub use blocks::{push_block, push_head};
pub use calls::{Transfer, dispose_form, lost_form, new_form, routine_form, transfer_form};
pub use control::{case_labels, for_form, hold_effects, open_record};
pub use entries::entry_of;
pub use form::{KeptForm, form_with};
pub use labels::push_labels;
pub use limits::{MAX_BLOCK_HOLDS, MAX_BLOCK_TEMPS};
pub use place::Place;
pub use statements::own_form;
pub use table::push_statement;
