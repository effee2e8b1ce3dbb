//! The parts of a program as tokens, and a token as text.
#![tactic(auto)]

mod declarations;
mod expressions;
mod spelling;
mod tokens;

pub use declarations::{
    push_constant, push_constants, push_decl, push_heading, push_idents, push_type,
};
pub use expressions::{push_access, push_accesses, push_args, push_expr};
pub use spelling::push_spelling;
