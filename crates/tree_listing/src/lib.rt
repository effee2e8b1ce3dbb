//! The listing of a tree: its tokens in lines, with the names of its items before them or without. `Events` and `Listing`
//! in `specs/` say which text it is; pascal_print says what is read of it.
#![tactic(auto)]

mod blocks;
mod event;
mod events;
mod layout;
mod list;
mod statements;

pub use event::{Event, Line};
pub use list::{list_program, list_statement};
