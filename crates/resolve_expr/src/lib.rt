//! Expressions without their identifiers: the operations of which they are made (ISO 7185:1990, 6.5 and 6.7).
#![tactic(auto)]

mod context;
mod expressions;
mod kept;
mod operators;
mod places;
mod sets;
mod types;
mod values;

pub use context::{Context, Kept, KeptCollected, KeptNode, KeptParts, MAX_BLOCK_WORDS, OwnerWords};
pub use expressions::{arguments, node_of, place_in, place_node};
pub use kept::{appended, applied, around, both, leaf, no_parts, with_part};
pub use operators::{compared, negation, product_with, signed, sum_with};
pub use places::{
    component_node, domain_node, domain_type, field_node, first_node, loaded, lost, place_of,
    scope_from,
};
pub use types::{load_of, shape_of, storage_of};
pub use values::{
    call_with, constant_node, number_node, place_argument, string_node, value_argument,
};
