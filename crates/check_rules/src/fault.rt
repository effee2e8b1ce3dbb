//! How the check of a program ends where it gives no program.
use dice_base::Name;

/// The first item of a program, in the order of the text, that has a fault by itself, and the least kind of fault that
/// it has: from `UNKNOWN` to `WRONG_PARAMETER`.
#[derive(Clone, Copy)]
pub struct CheckFault {
    pub kind: u8,
    pub name: Name,
}

/// The first block that does not fit its limits, with its words, temporaries or holds.
#[derive(Clone, Copy)]
pub enum SizeFault {
    /// More than 512 words of code.
    BlockTooLong(Name, u32),
    /// More than 32 words of temporaries.
    TooManyTemps(Name, u32),
    /// More than 8 holds.
    TooManyHolds(Name, u32),
}

/// Why a check gives no program.
#[derive(Clone, Copy)]
pub enum CheckEnd {
    Fault(CheckFault),
    Size(SizeFault),
    NoMemory,
}
