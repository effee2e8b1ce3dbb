//! Expressions (ISO 7185:1990, 6.7.1) and variable accesses (6.5).
use dice_base::Text;
use sqlite_items::{Boxed, Items};

/// The sign before a sum or a constant, if there is one.
#[derive(Clone, Copy)]
pub enum Prefix {
    Without,
    Plus,
    Minus,
}

/// A relational operator; `Member` is `in`.
#[derive(Clone, Copy)]
pub enum RelOp {
    Equal,
    NotEqual,
    Less,
    Greater,
    LessEqual,
    GreaterEqual,
    Member,
}

/// An adding operator.
#[derive(Clone, Copy)]
pub enum AddOp {
    Plus,
    Minus,
    Or,
}

/// A multiplying operator.
#[derive(Clone, Copy)]
pub enum MulOp {
    Times,
    Div,
    Mod,
    And,
}

/// An expression: a sum, or the relation of two.
#[cycle(expr)]
#[derive(Drop)]
pub struct Expr {
    pub first: SumExpr,
    pub rest: Option<RelPart>,
}

/// A relational operator, and the sum behind it.
#[cycle(expr)]
#[derive(Drop)]
pub struct RelPart {
    pub op: RelOp,
    pub right: SumExpr,
}

/// Terms with adding operators between, and perhaps a sign before the first.
#[cycle(expr)]
#[derive(Drop)]
pub struct SumExpr {
    pub prefix: Prefix,
    pub first: Term,
    pub rest: Items<AddPart>,
}

/// An adding operator, and the term behind it.
#[cycle(expr)]
#[derive(Drop)]
pub struct AddPart {
    pub op: AddOp,
    pub right: Term,
}

/// Factors with multiplying operators between.
#[cycle(expr)]
#[derive(Drop)]
pub struct Term {
    pub first: Factor,
    pub rest: Items<MulPart>,
}

/// A multiplying operator, and the factor behind it.
#[cycle(expr)]
#[derive(Drop)]
pub struct MulPart {
    pub op: MulOp,
    pub right: Factor,
}

/// A factor.
#[cycle(expr)]
#[derive(Drop)]
pub enum Factor {
    Number(u16),
    /// A character string, without its quotes.
    Str(Text),
    Nil,
    /// A variable, or a constant, or a function without arguments.
    Access(Access),
    /// A function with one argument or more.
    Call(Text, Items<Arg>),
    /// A set of these members.
    Members(Items<SetMember>),
    /// An expression in parentheses.
    Paren(Boxed<Expr>),
    Not(Boxed<Factor>),
}

/// A member of a set, or a range of members.
#[cycle(expr)]
#[derive(Drop)]
pub struct SetMember {
    pub first: Expr,
    pub last: Option<Expr>,
}

/// An argument, with the width behind its colon if there is one.
#[cycle(expr)]
#[derive(Drop)]
pub struct Arg {
    pub value: Expr,
    pub width: Option<Expr>,
}

/// An identifier, and how it goes on to a component.
#[cycle(expr)]
#[derive(Drop)]
pub struct Access {
    pub ident: Text,
    pub parts: Items<AccessPart>,
}

/// A step from a variable to a component.
#[cycle(expr)]
#[derive(Drop)]
pub enum AccessPart {
    Index(Items<Expr>),
    Field(Text),
    Dereference,
}
