//! What a block is made from: the own form of a statement, of a routine and of the program.
use crate::{CoreExpr, Shape, Storage, Variable};
use sqlite_items::Items;

/// A constant of a `case`, and the number of its arm, from 0.
#[derive(Clone, Copy, PartialEq, Eq)]
pub struct CaseLabel {
    pub value: i32,
    pub arm: u32,
}

/// A `for`: its variable, the first and the last value of the variable's type, and whether the steps go down.
#[derive(Clone, Copy, PartialEq, Eq)]
pub struct ForLoop {
    pub variable: Variable,
    pub first: i32,
    pub last: i32,
    pub down: bool,
}

/// What a statement does with its parts.
#[derive(Drop)]
pub enum StatementOp {
    Empty,
    /// Goes to the statement with this label.
    Goto(u16),
    /// The parts are a place and a value.
    Assign(Storage),
    /// The part is a call.
    Call,
    /// Whether there is an `else`.
    If(bool),
    Case(Items<CaseLabel>),
    While,
    Repeat,
    /// The parts are the bounds.
    For(ForLoop),
    /// The parts are the holds of its records.
    With,
    /// Whether it goes past the end of the line after its parts, which are effects.
    Read(bool),
    /// The same of writing.
    Write(bool),
    /// The part is the place of a pointer to a variable of so many words.
    New(u32),
    /// The part is the value of such a pointer.
    Dispose(u32),
}

/// A statement without the statements in it. A compound statement has none.
#[derive(Drop)]
pub struct StatementForm {
    /// The level of its routine, 0 for the program.
    pub level: u8,
    /// How many holds the `for` and `with` statements around it have in its routine.
    pub holds: u32,
    pub op: StatementOp,
    /// The type of a `for`'s variable, and that of the variable to which the pointer of `new` or `dispose` leads.
    pub shape: Option<Shape>,
    pub parts: Items<CoreExpr>,
}

/// How a routine takes a parameter.
#[derive(Clone, Copy, PartialEq, Eq)]
pub enum Parameter {
    Scalar,
    Set,
    /// An array or a record of so many words.
    Structure(u32),
    ByPlace,
}

/// What the entering and the leaving code of a routine is made from.
#[derive(Drop)]
pub struct RoutineForm {
    /// 1 for a routine of the program.
    pub level: u8,
    pub parameters: Items<Parameter>,
    /// It is a function, whose result takes a word.
    pub function: bool,
    pub local_words: u32,
}

/// The own form of what has a block.
#[derive(Drop)]
pub enum CoreForm {
    Program,
    Routine(RoutineForm),
    Statement(StatementForm),
}
