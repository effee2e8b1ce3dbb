//! The labels of a body, and the rule of a label declaration part (ISO 7185:1990, 6.1.6, 6.2.1 and 6.8.1).
#![tactic(auto)]

mod labels;

pub use labels::{has_number, label_part_kind, push_labels};
