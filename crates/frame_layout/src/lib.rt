//! Where the variables of the program and of each routine lie in the memory.
//!
//! The words of an owner are numbered from 0: a function's result first, then the parameters, then the variables of the
//! block, in the order of their declaration. A value takes the words of its type, a variable parameter one.
#![tactic(auto)]

mod fault;
mod filling;
mod frame;
mod laying;
mod rows;
mod sizes;

pub use fault::LayoutFault;
pub use laying::layout;
pub use rows::{Layout, LayoutRow, Layouts};
pub use sizes::{LINKAGE_WORDS, MAX_GLOBAL_WORDS, MAX_STACK_CHARGE};
