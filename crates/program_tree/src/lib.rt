//! Programs whose items have names, and the way from a name to its item.
//!
//! `specs/Named` says what the names are, `specs/Search` which path leads to the item with a name, `specs/Lookups` what
//! a look-up gives, and `specs/Found` what the list of all items says of it.
#![tactic(auto)]

mod index;
mod item;
mod program;

pub use item::Item;
pub use program::Program;
