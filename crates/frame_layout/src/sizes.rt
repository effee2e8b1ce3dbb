//! What the variables of a program and of its routines may take.

/// The variables of the program take at most so many words.
pub const MAX_GLOBAL_WORDS: u32 = 4_096;

/// A call of a routine takes at most so many words of the stack.
pub const MAX_STACK_CHARGE: u32 = 2_048;

/// The words of the stack that a call takes besides the words of the routine: 5 for the linkage, 8 for holds, 32 for
/// temporaries.
pub const LINKAGE_WORDS: u32 = 45;
