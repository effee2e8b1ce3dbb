//! Why a list of tokens is not read.
use dice_base::NoMemory;
use thiserror::Error;

/// Why a list of tokens is not read.
#[derive(Clone, Copy, Debug, PartialEq, Eq, Error)]
pub enum ParseFault {
    /// The token of this index, counted from 0, is the first after which nothing goes on.
    #[error("unexpected token {0}")]
    Unexpected(u32),
    /// All tokens can go on, but they are not read as they are.
    #[error("ends early")]
    EndsEarly,
    /// A token passes the levels that are allowed, before any place after which nothing goes on.
    #[error("too deep")]
    TooDeep,
    /// Memory was refused. No contract says when this comes.
    #[error("out of memory")]
    NoMemory,
}

impl From<NoMemory> for ParseFault {
    ghost use Rattle.std.specs.Prelude.{◌≡◌};
    ghost use Rattle.token_reader.specs.declared.fault.ParseFault.TheVariants as faults;

    ghost from_gives = { λ _ e. e ≡ faults.NoMemory };

    fn from(_: NoMemory) -> Self {
        ParseFault::NoMemory
    }
}
