//! Expressions and accesses, judged (ISO 7185:1990, 6.5 and 6.7).
//!
//! In `specs/`: what is known of an expression, and operators (`Values`); accesses and calls (`Accesses`); a rule for
//! each form (`ExpressionRules`), and their folds over the tree (`Expressions`). The code judges operators and accesses. Calls,
//! set brackets and whole expressions are to come.
#![tactic(auto)]

mod accesses;
mod notes;
mod operators;

pub use accesses::{
    component_place, declared_entity, domain_place, field_place, first_place, opened_field,
};
pub use notes::{Env, Judged, Notes, OpenedRecord, Place, notes_of, notes_of_both, notes_with};
pub use operators::{
    judgement_of_both, may_be_compatible, may_be_host, may_be_ordinal, negation, product_type,
    relation_judgement, signed_judgement, sum_type,
};
