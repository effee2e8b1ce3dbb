//! The console of the machine: what it writes, its services, and the runs of machine and console.
#![tactic(auto)]

mod block;
mod console;
mod instruction;
mod memory_map;
mod opcodes;
pub mod services;

pub use block::BlockCode;
pub use console::{Console, Served};
pub use instruction::{Stop, execute};
pub use memory_map::{
    CODE_BYTE, CODE_ROOM_WORDS, CODE_WORD, CONSOLE_ROOM_BYTES, GLOBALS_BYTE, GLOBALS_ROOM_WORDS,
    GLOBALS_WORD, HEAP_BYTE, HEAP_WORD, MEMORY_END_BYTE, MEMORY_END_WORD, PATCH_BYTE, PATCH_WORD,
    STACK_BYTE, STACK_WORD,
};
pub use opcodes::{BPT, EMT, NOP, TRAP};
