//! What identifiers stand for, and the regions in which they are declared (ISO 7185:1990, 6.2.2).
use crate::Typing;
use dice_base::{Name, Text};
use sqlite_items::Items;

/// The value of a constant: an ordinal number, or the characters of a string.
#[derive(Drop)]
pub enum Constant {
    Number(i32),
    Chars(Text),
}

/// A variable, with its first word among its owner's words.
#[derive(Clone, Copy)]
pub struct Variable {
    pub owner: Name,
    pub typing: Typing,
    pub offset: u32,
    /// It is a variable parameter.
    pub by_place: bool,
    /// It was declared in the variable part of a block.
    pub local: bool,
}

/// A field of a record, known by its identifier alone in the record's own text and where a `with` statement opened it.
#[derive(Clone, Copy)]
pub struct Field {
    pub typing: Typing,
    pub offset: u32,
    /// The number, from 1, of the hold that has the record's place; 0 in the record's own text.
    pub hold: u32,
    /// It is a component of a packed record.
    pub packed: bool,
}

/// A parameter of a procedure or a function.
#[derive(Drop)]
pub struct Parameter {
    pub ident: Text,
    pub by_place: bool,
    pub typing: Typing,
}

/// A procedure or a function, under the name of the item that has its block.
#[derive(Drop)]
pub struct RoutineEntity {
    pub name: Name,
    pub function: bool,
    /// Its own level: 1 where it stands in the program's block.
    pub level: u32,
    pub parameters: Items<Parameter>,
    /// `Unknown` for a procedure.
    pub result: Typing,
    /// Only its `forward` heading was met so far.
    pub forward: bool,
}

/// The predeclared text files.
#[derive(Clone, Copy)]
pub enum StandardFile {
    Input,
    Output,
}

/// The predeclared procedures and functions.
#[derive(Clone, Copy)]
pub enum Standard {
    Abs,
    Sqr,
    Odd,
    Ord,
    Chr,
    Succ,
    Pred,
    Eof,
    Eoln,
    New,
    Dispose,
    Read,
    Readln,
    Write,
    Writeln,
}

/// What an identifier stands for.
#[derive(Drop)]
pub enum Entity {
    ConstantOf(Constant, Typing),
    /// A type, with the name of its declaration where it is not predeclared.
    TypeOf(Typing, Option<Name>),
    VariableOf(Variable),
    FileOf(StandardFile),
    FieldOf(Field),
    RoutineOf(RoutineEntity),
    StandardOf(Standard),
}

/// An identifier, and what it stands for.
#[derive(Drop)]
pub struct Declared {
    pub ident: Text,
    pub entity: Entity,
}

/// A part of the text in which identifiers are declared: those that are declared so far, and all that it declares
/// anywhere. While its type part is read, also the types and the enumeration constants of that part.
#[derive(Drop)]
pub struct Region {
    pub declared: Items<Declared>,
    pub later: Items<Text>,
    pub types: Items<(Text, Name)>,
    pub constants: Items<Text>,
}

/// A constant in a text: its value, its type, and the least kind of fault.
#[derive(Drop)]
pub struct JudgedConstant {
    pub value: Constant,
    pub typing: Typing,
    pub kind: u8,
}
