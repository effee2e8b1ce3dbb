//! How far sums count.

/// Charges, in words of code, and needs, in words of temporaries, count up to this and no further.
pub const MAX_COUNTED_CHARGE: u32 = 1_000_000;

/// Offsets and sums of words of variables count up to this and no further.
pub const MAX_COUNTED_WORDS: u32 = 1_000_000_000;
