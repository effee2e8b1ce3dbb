//! Types without their declarations (ISO 7185:1990, 6.4). All types that a program writes stand in one table, and a type
//! is named by its place there. So no type is copied, however many others it is a part of.
use dice_base::{Name, Text};
use sqlite_items::Items;

/// A type: a predeclared one, or the entry of this number in the table of shapes.
#[derive(Clone, Copy, PartialEq, Eq)]
pub enum Shape {
    Integer,
    Boolean,
    Char,
    Written(u32),
}

/// What a pointer type leads to: a type by the name of its declaration, or a predeclared one.
#[derive(Clone, Copy, PartialEq, Eq)]
pub enum Domain {
    Declared(Name),
    Predeclared(Shape),
}

/// A field of a record.
#[derive(Drop)]
pub struct FieldShape {
    pub ident: Text,
    pub shape: Shape,
}

/// A type that a program writes, over the types that were written before it.
#[derive(Drop)]
pub enum WrittenShape {
    Enumeration(Items<Text>),
    /// Of the host, with the first and the last value.
    Subrange(Shape, i32, i32),
    SetOf(Shape),
    /// Of the index and the component.
    ArrayOf(Shape, Shape),
    RecordOf(Items<FieldShape>),
    Pointer(Domain),
}

/// An entry of the table, with the words that a value of it takes, counted up to `MAX_COUNTED_WORDS`.
#[derive(Drop)]
pub struct ShapeEntry {
    pub shape: WrittenShape,
    pub words: u32,
}
