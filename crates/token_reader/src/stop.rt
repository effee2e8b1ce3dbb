//! Why reading stops.
use dice_base::NoMemory;
use std::alloc::AllocError;

/// Why reading stops. Where it stops is where the tokens that are left begin.
#[derive(Clone, Copy)]
pub enum Stop {
    /// Memory was refused. No contract says when this comes.
    Memory,
    /// At a token that nothing takes, or at the end.
    At,
    /// Where a level too many would begin.
    Deep,
}

impl From<AllocError> for Stop {
    ghost use Rattle.std.specs.Prelude.{◌≡◌};
    ghost use Rattle.token_reader.specs.declared.stop.Stop.TheVariants.{Memory};

    ghost from_gives = { λ _ e. e ≡ Memory };

    fn from(_: AllocError) -> Stop {
        Stop::Memory
    }
}

impl From<NoMemory> for Stop {
    ghost use Rattle.std.specs.Prelude.{◌≡◌};
    ghost use Rattle.token_reader.specs.declared.stop.Stop.TheVariants.{Memory};

    ghost from_gives = { λ _ e. e ≡ Memory };

    fn from(_: NoMemory) -> Stop {
        Stop::Memory
    }
}
