//! Statements (ISO 7185:1990, 6.8).
use crate::{Access, Arg, Expr, Prefix};
use dice_base::{Name, Text};
use sqlite_items::{Boxed, Items};

/// A constant (ISO 7185:1990, 6.3).
#[derive(Drop)]
pub enum Constant {
    Number(Prefix, u16),
    Named(Prefix, Text),
    /// A character string, without its quotes.
    Str(Text),
}

/// A statement, with its name and the label that may stand before it.
#[cycle(stmt)]
#[derive(Drop)]
pub struct Stmt {
    pub name: Name,
    pub label: Option<u16>,
    pub kind: StmtKind,
}

/// What a statement says.
#[cycle(stmt)]
#[derive(Drop)]
pub enum StmtKind {
    Empty,
    Assign(Access, Expr),
    Call(Text, Items<Arg>),
    Goto(u16),
    Compound(Items<Stmt>),
    If(Expr, Boxed<Stmt>, Option<Boxed<Stmt>>),
    Case(Expr, Items<Arm>),
    While(Expr, Boxed<Stmt>),
    Repeat(Items<Stmt>, Expr),
    /// The control variable, the first bound, whether the steps go down, the last bound, and the body.
    For(Text, Expr, bool, Expr, Boxed<Stmt>),
    With(Items<Access>, Boxed<Stmt>),
}

/// An arm of a `case` statement.
#[cycle(stmt)]
#[derive(Drop)]
pub struct Arm {
    pub constants: Items<Constant>,
    pub body: Stmt,
}
