//! Whole programs, judged and resolved (ISO 7185:1990, 6.2 and 6.10).
//!
//! In `specs/`: what comes of the body of a block (`BodyRules`), programs (`Programs`), the sizes of their layouts
//! (`Layouts`), the routines and blocks that the walk through a program adds (`Resolution`), and what a program is resolved
//! to, or why it is not (`Parts`).
#![tactic(auto)]

mod bodies;
mod layouts;
mod lists;
mod own;
mod parts;
mod programs;
mod routines;

pub use bodies::WithBodies;
pub use layouts::{LayoutFault, layout_fault, stack_charge};
pub use parts::{Parts, resolve_parts};
pub use programs::check_program;
