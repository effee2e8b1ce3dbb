//! The variables of one owner, as far as they are laid out.
use crate::LayoutRow;
use sqlite_items::Items;

/// The rows of the variables so far, and their words, counted up to 1,000,000,000.
#[derive(Drop)]
pub struct Frame {
    pub rows: Items<LayoutRow>,
    pub words: u32,
}
