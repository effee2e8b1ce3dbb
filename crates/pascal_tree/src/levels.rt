//! How deep the constructs of a program may nest.

/// So many levels a program has at most: the program is the first, and each routine, statement, expression in brackets
/// or parentheses, operand of `not` and inner type is one more.
pub const LEVELS: usize = 64;
