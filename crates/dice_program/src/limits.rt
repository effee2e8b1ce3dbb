//! What a script may have at most.

/// A script has fewer lines than this.
pub const MAX_LINES: u32 = 1_000_000;

/// A script has so many bytes at most.
pub const MAX_BYTES: u32 = 67_108_864;
