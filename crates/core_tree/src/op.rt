//! Expressions after name resolution (ISO 7185:1990, 6.5 and 6.7).
use crate::Shape;
use dice_base::{Name, Text};
use sqlite_items::Items;

/// Whose variables, seen from a statement.
#[derive(Clone, Copy, PartialEq, Eq)]
pub enum Scope {
    /// The program's.
    Program,
    /// Those of the routine so many static links up, 0 being the statement's own.
    Routine(u8),
}

/// A variable, or a function's result.
#[derive(Clone, Copy, PartialEq, Eq)]
pub struct Variable {
    pub scope: Scope,
    /// Its first word among the words of its owner.
    pub offset: u32,
    /// It is a variable parameter: its word holds the place of the actual variable.
    pub by_place: bool,
    /// The words of its owner's result, parameters and locals; 0 where the owner is the program.
    pub frame_words: u32,
}

/// How a value is kept, and which values an assignment lets through.
#[derive(Clone, Copy, PartialEq, Eq)]
pub enum Storage {
    /// One word, with values from the first to the last one.
    Ordinal(i32, i32),
    /// One word.
    Pointer,
    /// Eight words, with members from the first to the last one.
    Set(u8, u8),
    /// An array or a record of so many words.
    Structure(u32),
}

/// A relation (ISO 7185:1990, 6.7.2.5).
#[derive(Clone, Copy, PartialEq, Eq)]
pub enum Relation {
    Equal,
    NotEqual,
    Less,
    Greater,
    LessEqual,
    GreaterEqual,
}

/// An operation that gives a place.
#[derive(Clone, Copy, PartialEq, Eq)]
pub enum PlaceOp {
    /// A variable, without parts.
    Variable(Variable),
    /// A field of a record that a `with` holds: the number of the hold, from 1, and the field's offset in words.
    /// Without parts.
    Held(u32, u32),
    /// The field at this offset, in words, of the record at a place.
    Field(u32),
    /// A component of an array: the first and the last index, and the words of a component. The parts are the array's
    /// place and the index.
    Index(i32, i32, u32),
    /// The variable of so many words to which the pointer at a place leads.
    Dereference(u32),
}

/// An operation that gives a word. Its parts are words, unless it is said otherwise.
#[derive(Clone, Copy, PartialEq, Eq)]
pub enum WordOp {
    /// A number, or a constant that is no string.
    Constant(i32),
    Nil,
    /// The word at a place.
    Load,
    Plus,
    Negate,
    Not,
    Add,
    Subtract,
    Multiply,
    Divide,
    Modulo,
    And,
    Or,
    /// Of two ordinals or pointers.
    Compare(Relation),
    /// Of two sets.
    CompareSets(Relation),
    /// Of the places of two strings of this length.
    CompareStrings(Relation, u32),
    /// Whether an ordinal is a member of a set.
    In,
    Abs,
    Sqr,
    Odd,
    Ord,
    Chr,
    /// The next value, where values go from this first to this last one.
    Succ(i32, i32),
    /// The value before, likewise.
    Pred(i32, i32),
    Eof,
    Eoln,
}

/// An operation that gives a set. Set brackets are `Empty`, and each member one operation around it.
#[derive(Clone, Copy, PartialEq, Eq)]
pub enum SetOp {
    /// The set at a place.
    Load,
    Empty,
    /// A set and one more member.
    Include,
    /// A set and all members from a first to a last one.
    IncludeRange,
    Union,
    Difference,
    Intersection,
}

/// The routine that is called, and whose declarations it is among.
#[derive(Clone, Copy, PartialEq, Eq)]
pub struct Callee {
    pub routine: Name,
    pub scope: Scope,
    pub function: bool,
}

/// What a parameter of `write` is.
#[derive(Clone, Copy, PartialEq, Eq)]
pub enum Written {
    Integer,
    Char,
    Boolean,
    /// The string of this length at a place.
    String(u32),
}

/// A part of a statement that has an effect and no value.
#[derive(Clone, Copy, PartialEq, Eq)]
pub enum EffectOp {
    /// The place of a record goes to the hold of a number, from 1: the number, and the record's words.
    Hold(u32, u32),
    /// An integer from this first to this last one is read into a place.
    ReadInteger(i32, i32),
    /// The same of a character.
    ReadChar(i32, i32),
    /// A value is written, in the width of a second part where there is one.
    Write(Written, bool),
}

/// An operation.
#[derive(Drop)]
pub enum Op {
    Place(PlaceOp),
    Word(WordOp),
    Set(SetOp),
    /// The place of a string of characters of this statement.
    Literal(Text),
    /// The place of an array or a record, as its value.
    Structure,
    /// The value of a parameter, checked for it.
    Argument(Storage),
    /// The place of an actual variable.
    ActualVariable,
    /// The call of a routine. The parts are the arguments.
    Call(Callee),
    Effect(EffectOp),
}

/// An operation and its parts, which are evaluated from the first on.
///
/// `shape` is the type of a variable, a field or a constant; of the array that is indexed; of the variable to which a
/// pointer leads. Other operations have none. It tells two forms apart, and has no part in what the operation does.
#[cycle(core_expr)]
#[derive(Drop)]
pub struct CoreExpr {
    pub op: Op,
    pub shape: Option<Shape>,
    pub parts: Items<CoreExpr>,
}
