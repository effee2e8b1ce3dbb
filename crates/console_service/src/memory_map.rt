//! The areas of the memory: the one map of the repository.
//!
//! | area    | first byte        | first word | words  |
//! |---------|-------------------|------------|--------|
//! | low     | 0o000000 (0)      | 0          | 256    |
//! | code    | 0o001000 (512)    | 256        | 10,240 |
//! | patches | 0o051000 (20,992) | 10,496     | 3,072  |
//! | globals | 0o065000 (27,136) | 13,568     | 4,096  |
//! | heap    | 0o105000 (35,328) | 17,664     | 4,096  |
//! | stack   | 0o125000 (43,520) | 21,760     | 6,912  |
//! | end     | 0o160000 (57,344) | 28,672     |        |
//!
//! A name ends in the unit of its number: a byte address (`_BYTE`), a word number (`_WORD`, half of a byte address),
//! or how many there are (`_WORDS`, `_BYTES`).

use pdp11_machine::{MEMORY_BYTES, MEMORY_WORDS};

/// The byte address at which the code area begins: there lies the program's block.
pub const CODE_BYTE: u16 = 0o1000;

/// The word number at which the code area begins.
pub const CODE_WORD: u16 = CODE_BYTE / 2;

/// How many words the code area has.
pub const CODE_ROOM_WORDS: u16 = PATCH_WORD - CODE_WORD;

/// The byte address at which the area of patches begins.
pub const PATCH_BYTE: u16 = 0o51000;

/// The word number at which the area of patches begins.
pub const PATCH_WORD: u16 = PATCH_BYTE / 2;

/// The byte address of the first global variable.
pub const GLOBALS_BYTE: u16 = 0o65000;

/// The word number of the first global variable.
pub const GLOBALS_WORD: u16 = GLOBALS_BYTE / 2;

/// How many words the globals have.
pub const GLOBALS_ROOM_WORDS: u16 = HEAP_WORD - GLOBALS_WORD;

/// The byte address at which the heap begins.
pub const HEAP_BYTE: u16 = 0o105000;

/// The word number at which the heap begins.
pub const HEAP_WORD: u16 = HEAP_BYTE / 2;

/// The lowest byte address of the stack, which grows down from `MEMORY_END_BYTE`.
pub const STACK_BYTE: u16 = 0o125000;

/// The lowest word number of the stack.
pub const STACK_WORD: u16 = STACK_BYTE / 2;

/// The byte address at which the memory ends, and SP where the stack is empty.
pub const MEMORY_END_BYTE: u16 = MEMORY_BYTES;

/// The word number at which the memory ends.
pub const MEMORY_END_WORD: u16 = MEMORY_WORDS;

/// How many bytes each of the console's queues holds: those that were written and not yet drained, and those that were
/// fed and not yet read.
pub const CONSOLE_ROOM_BYTES: u32 = 65_536;
