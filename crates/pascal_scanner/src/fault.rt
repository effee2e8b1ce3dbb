//! Why a text has no tokens.
use dice_base::NoMemory;
use thiserror::Error;

/// Why a text has no tokens (ISO 7185:1990, 6.1). A place is the byte, counted from 0, where the first token or comment
/// begins that cannot be read.
#[derive(Clone, Copy, Debug, PartialEq, Eq, Error)]
pub enum ScanFault {
    /// A byte that begins no token.
    #[error("bad character at {0}")]
    BadCharacter(u32),
    /// A comment that is not closed.
    #[error("comment not closed at {0}")]
    OpenComment(u32),
    /// A string that meets a byte other than tab and 32 to 126 before it is closed, or has no character in it.
    #[error("string not closed at {0}")]
    OpenString(u32),
    /// A number above 32,767.
    #[error("number too large at {0}")]
    NumberTooLarge(u32),
    /// More than `MAX_TEXT_BYTES`. This is tried first.
    #[error("text too long")]
    TextTooLong,
    /// Memory was refused. No contract says when this comes.
    #[error("out of memory")]
    NoMemory,
}

impl From<NoMemory> for ScanFault {
    fn from(_: NoMemory) -> Self {
        ScanFault::NoMemory
    }
}
