//! Names of the items of a program, and places in its text.

/// The name of an item of a program, counted from 1. It never changes, and no other item ever bears it.
#[derive(Clone, Copy, Debug, PartialEq, Eq)]
pub struct Name(pub u32);

/// A part of a text, in bytes: from the first byte up to, and without, the byte at `to`.
#[derive(Clone, Copy, Debug, PartialEq, Eq)]
pub struct Span {
    pub from: u32,
    pub to: u32,
}
