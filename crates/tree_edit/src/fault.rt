//! Why an edit is refused.
use dice_base::{Name, NoMemory};
use thiserror::Error;

/// Why an edit is refused.
#[derive(Clone, Copy, Debug, PartialEq, Eq, Error)]
pub enum EditFault {
    /// No item has the name.
    #[error("no such name {}", .0.0)]
    NoSuchName(Name),
    /// The item of this name cannot be edited so.
    #[error("wrong kind {}", .0.0)]
    WrongKind(Name),
    /// The edited program would have too many levels.
    #[error("too deep")]
    TooDeep,
    /// There are no more names for new items.
    #[error("names spent")]
    NamesSpent,
    /// Memory was refused. No contract says when this comes.
    #[error("out of memory")]
    NoMemory,
}

impl From<NoMemory> for EditFault {
    ghost use Rattle.std.specs.Prelude.{◌≡◌};
    ghost use Rattle.tree_edit.specs.declared.fault.EditFault.TheVariants as faults;

    ghost from_gives = { λ _ e. e ≡ faults.NoMemory };

    fn from(_: NoMemory) -> Self {
        EditFault::NoMemory
    }
}
