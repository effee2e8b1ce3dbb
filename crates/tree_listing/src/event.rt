//! What a listing is made of.
use dice_base::{Name, TokenKind};
use sqlite_items::Items;

/// An event of a listing. The numbers are levels: that of the program is 0, and that of an item in another is one more.
#[derive(Debug, Drop)]
pub enum Event {
    /// The item of this name begins, at this level.
    Item(Name, usize),
    /// The next token begins a part of the block of an item of this level.
    Part(usize),
    /// An item in one of this level has ended.
    Back(usize),
    Token(TokenKind),
}

/// A line of a listing.
#[derive(Debug, Drop)]
pub struct Line {
    /// The name of the item that begins on the line, if one does.
    pub name: Option<Name>,
    pub level: usize,
    pub tokens: Items<TokenKind>,
}
