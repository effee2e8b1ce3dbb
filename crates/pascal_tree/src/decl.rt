//! Blocks and declarations (ISO 7185:1990, 6.2 and 6.6).
use crate::{Constant, Stmt, TypeText};
use dice_base::{Name, Text};
use sqlite_items::Items;

/// A declaration, with its name.
#[derive(Drop)]
pub struct Decl {
    pub name: Name,
    pub kind: DeclKind,
}

/// What a declaration says. All labels of a block are one declaration.
#[derive(Drop)]
pub enum DeclKind {
    LabelDecl(Items<u16>),
    ConstDecl(Text, Constant),
    TypeDecl(Text, TypeText),
    VarDecl(Items<Text>, TypeText),
}

/// Parameters of one type.
#[derive(Drop)]
pub struct Section {
    /// They are variable parameters.
    pub by_place: bool,
    pub idents: Items<Text>,
    /// The type's identifier.
    pub shape: Text,
}

/// The heading of a procedure or a function.
#[derive(Drop)]
pub struct Heading {
    pub function: bool,
    pub ident: Text,
    pub sections: Items<Section>,
    /// The identifier of a function's type.
    pub result: Option<Text>,
}

/// A procedure or a function, with its name. Without a block it is `forward`.
#[cycle(block)]
#[derive(Drop)]
pub struct Routine {
    pub name: Name,
    pub heading: Heading,
    pub block: Option<Block>,
}

/// The declarations and the body of a program or a routine.
#[cycle(block)]
#[derive(Drop)]
pub struct Block {
    pub labels: Option<Decl>,
    pub consts: Items<Decl>,
    pub types: Items<Decl>,
    pub vars: Items<Decl>,
    pub routines: Items<Routine>,
    pub body: Stmt,
}
