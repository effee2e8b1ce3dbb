//! Types (ISO 7185:1990, 6.4). All types that a program writes stand in one table, in the order of the text, and a type
//! is named by its place there. So no type is copied, and two types are the same exactly where their numbers are.
use dice_base::{Name, Text};
use sqlite_items::Items;

/// The type of which an ordinal type is a subrange, or that type itself (6.4.2). An enumeration is named by its place
/// in the table.
#[derive(Clone, Copy)]
pub enum Host {
    Integer,
    Boolean,
    Char,
    Enumeration(u32),
}

/// Whether a set is packed. A set constructor takes either, as its context asks (6.7.1).
#[derive(Clone, Copy)]
pub enum Packing {
    Either,
    Unpacked,
    Packed,
}

/// A type.
#[derive(Clone, Copy)]
pub enum Typing {
    Ordinal(Host),
    /// A written subrange, set, array, record or pointer type: its place in the table.
    Written(u32),
    /// That of a set constructor, and of an operation on sets: the canonical set type over a host (6.4.3.4, 6.7.1).
    CanonicalSet(Host, Packing),
    /// That of `[]`.
    EmptySet,
    /// That of a string literal of so many characters, counted up to `MAX_COUNTED`.
    Literal(u32),
    Nil,
    /// That of `input` and `output`.
    File,
    /// That of an expression or a type with a fault. It keeps every rule, so one fault is told once.
    Unknown,
}

/// What a pointer leads to (6.4.4): a type by the name of its declaration, or a predeclared one. The declaration may
/// come later than the pointer.
#[derive(Clone, Copy)]
pub enum Domain {
    Declared(Name),
    Predeclared(Host),
}

/// A field of a record (6.4.3.3), with its first word in the record.
#[derive(Drop)]
pub struct FieldType {
    pub ident: Text,
    pub typing: Typing,
    pub offset: u32,
}

/// How a written type is made. The bool says `packed`.
#[derive(Drop)]
pub enum Structure {
    Enumeration(Items<Text>),
    /// Of the host, from the first to the last value.
    Subrange(Host, i32, i32),
    SetOf(bool, Typing),
    /// Of the index and the component.
    ArrayOf(bool, Typing, Typing),
    RecordOf(bool, Items<FieldType>),
    Pointer(Domain),
}

/// A type of the table, with the words that a value of it takes, counted up to `MAX_COUNTED`.
#[derive(Drop)]
pub struct WrittenType {
    pub structure: Structure,
    pub words: u32,
}
