//! What a resolved program has besides its blocks (ISO 7185:1990, 6.4, 6.5 and 6.6): its types as shapes, and its
//! headings, variables and own forms of routines, from what the check of its declarations leaves.
//!
//! A type of the check and its shape have the same place in their tables.
#![tactic(auto)]

mod contexts;
mod copies;
mod headings;
mod laws;
mod programs;
mod routines;
mod shapes;

pub use contexts::{entered, left, program_context};
pub use copies::{copy_changed, copy_domains, copy_region, copy_table};
pub use headings::{core_heading, core_variables};
pub use laws::{built_table, context_inside, variables_behind};
pub use programs::{core_routine, owner_words, program_entity, region_of};
pub use routines::core_form;
pub use shapes::{declared_shape, domain_shapes, shape_table};
