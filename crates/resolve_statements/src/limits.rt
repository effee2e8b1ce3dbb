//! What a block may have.

/// The most words of temporaries that a block takes.
pub const MAX_BLOCK_TEMPS: u32 = 32;

/// The most holds of a statement, with those of the statements around it.
pub const MAX_BLOCK_HOLDS: u32 = 8;
