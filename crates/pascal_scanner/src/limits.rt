//! The limits of a text.

/// The most bytes that a text has.
pub const MAX_TEXT_BYTES: usize = 65_536;
