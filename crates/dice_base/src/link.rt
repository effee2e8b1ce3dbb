//! The link words of a block: the address words that lead out of it.
use crate::Name;

/// Where a link word leads, seen from the block that it stands in. So a block that is kept says its ends in any
/// later program.
#[derive(Clone, Copy, Debug, PartialEq, Eq)]
pub enum LinkTo {
    /// What comes after the block's statement.
    Next,
    /// The substatement of this number, counted from 0, or the body of a routine or of the program.
    Child(u32),
    /// The statement with this label.
    Label(u16),
    /// The block of this routine.
    Routine(Name),
}

/// A link word: its offset in words from the begin of its block, and where it leads.
#[derive(Clone, Copy, Debug, PartialEq, Eq)]
pub struct LinkWord {
    pub offset: u16,
    pub to: LinkTo,
}
