//! The arithmetic of the PDP-11/40 on words, bytes and flags: PDP-11/40 Processor Handbook, chapters 4 and 7. Words and
//! bytes are in two's complement, and a byte is a `u16` below 256.
#![tactic(auto)]

mod arithmetic;
mod outcome;
mod words;

pub use arithmetic::{
    changes_sign, division_of, product_leaves_range, product_of, wide_left_of, wide_right_of,
};
pub use outcome::{Outcome, apply};
pub use words::{difference_leaves_range, difference_of, half_of, sum_leaves_range};
