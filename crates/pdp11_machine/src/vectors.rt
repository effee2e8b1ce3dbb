//! The vectors of the traps: PDP-11/40 Processor Handbook, chapter 2 and appendix.

/// An odd address, or one that is not there.
pub const BUS_ERROR: u16 = 0o4;

/// A reserved instruction.
pub const RESERVED: u16 = 0o10;

/// BPT.
pub const BREAKPOINT: u16 = 0o14;

/// IOT.
pub const INPUT_OUTPUT: u16 = 0o20;

/// EMT.
pub const EMULATOR: u16 = 0o30;

/// TRAP.
pub const PROGRAM: u16 = 0o34;
