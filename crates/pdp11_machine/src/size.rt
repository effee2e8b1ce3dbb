//! How large the machine is.

/// How many bytes the memory has. Their addresses are the numbers below it.
pub const MEMORY_BYTES: u16 = 0o160000;

/// How many words the memory has: 28,672.
pub const MEMORY_WORDS: u16 = MEMORY_BYTES / 2;

/// How many general registers there are: R0 to R5, SP by 6 and PC by 7.
pub const REGISTERS: usize = 8;
