//! The instruction words that gates and the ends of runs are known by: PDP-11/40 Processor Handbook, chapter 4.

/// NOP: a gate with no break.
pub const NOP: u16 = 0o000240;

/// BPT: a gate with a break.
pub const BPT: u16 = 0o000003;

/// EMT 0. The number of a service is added to it.
pub const EMT: u16 = 0o104000;

/// TRAP 0. The number of a run-time error is added to it.
pub const TRAP: u16 = 0o104400;
