//! The tokens of a program's text.
use crate::{Span, Text};

/// What a token is.
#[derive(Debug, Drop)]
pub enum TokenKind {
    /// The word symbol of this number, counted from 0 in `WORD_SYMBOLS`.
    Word(u8),
    /// An identifier, in lower case.
    Ident(Text),
    /// A number up to 32,767.
    Number(u16),
    /// A character string, without its quotes.
    Str(Text),
    /// The sign of this number, counted from 0 in `SIGNS`.
    Sign(u8),
    /// The byte `#`, which stands for a part that is left out.
    Hole,
}

/// A token, and where it stands in its text.
#[derive(Debug, Drop)]
pub struct Token {
    pub kind: TokenKind,
    pub span: Span,
}
