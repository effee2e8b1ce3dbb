//! Why a program has no layout.
use dice_base::{Name, NoMemory};
use std::alloc::AllocError;
use thiserror::Error;

/// Why a program has no layout.
#[derive(Debug, Drop, Error)]
pub enum LayoutFault {
    /// The variables of the program take so many words, which is above `MAX_GLOBAL_WORDS`.
    #[error("the variables of the program take {0} words")]
    GlobalsFull(u32),
    /// The stack charge of this routine, the first such in the order of the text, is so many words, above
    /// `MAX_STACK_CHARGE`.
    #[error("a call of a routine takes {1} words of the stack")]
    FrameTooLarge(Name, u32),
    #[error("no memory")]
    NoMemory,
}

impl From<NoMemory> for LayoutFault {
    ghost use Rattle.std.specs.Prelude.{◌≡◌};
    ghost use Rattle.frame_layout.specs.declared.fault.LayoutFault.TheVariants as fault;

    ghost from_gives = { λ _ e. e ≡ fault.NoMemory };

    fn from(_: NoMemory) -> Self {
        LayoutFault::NoMemory
    }
}

impl From<AllocError> for LayoutFault {
    ghost use Rattle.std.specs.Prelude.{◌≡◌};
    ghost use Rattle.frame_layout.specs.declared.fault.LayoutFault.TheVariants as fault;

    ghost from_gives = { λ _ e. e ≡ fault.NoMemory };

    fn from(_: AllocError) -> Self {
        LayoutFault::NoMemory
    }
}
