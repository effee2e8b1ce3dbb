//! Reads constants, types, declarations and headings from the tokens that are left.
//!
//! Each function answers what the reading function that its contract names answers (`Readers` in specs/), and leaves the
//! tokens that it leaves. The laws in `proofs/` say that these readers read what the grammar spells.
#![tactic(auto)]

mod consts;
mod decls;
mod headings;
mod names;
mod types;

pub use consts::{constant, constants};
pub use decls::{constdef, decl, labels, typedef, vardef};
pub use headings::heading;
pub use names::idents;
pub use types::declared_type;
