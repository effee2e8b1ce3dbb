//! Declarations, headings and layouts, judged in the order of the text (ISO 7185:1990, 6.2, 6.6 and 6.10).
//!
//! In `specs/`: a rule for each part of a block (`BlockRules`) and their fold over the tree (`Blocks`). The rule of a body
//! is a parameter of the fold, so the walk through declarations alone and that through a whole program are one
//! definition.
#![tactic(auto)]

mod blocks;
mod bodies;
mod heads;
mod idents;
mod items;
mod labels;
mod parts;
mod place;
mod programs;
mod routines;

pub use blocks::block_walk;
pub use bodies::{JudgesBodies, WithoutBodies};
pub use heads::{Headed, naming_of, routine_head};
pub use idents::{block_idents, type_constants, type_names};
pub use items::{Judging, counted_sum, decl_items, item};
pub use labels::label_part;
pub use parts::declarations;
pub use place::{At, BodyPlace, Known, Layout, Owner, Row};
pub use programs::{Scopes, resolve_declarations, walk_program};
pub use routines::{
    Naming, block_for, copy_names, copy_routine, forward_in, new_block, owner_of, place_inside,
};
