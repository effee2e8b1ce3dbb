//! What a program may take of the target at most.

/// How many words of variables a program has: global words are numbered below it.
pub const GLOBAL_WORDS: u16 = 4_096;

/// How many words of code the blocks of a program take together, at most.
pub const MAX_PROGRAM_WORDS: u64 = 10_240;
