//! The tree of a Pascal program and its grammar (ISO 7185:1990, clause 6), and exact copies of trees.
//!
//! In `specs/`: the grammar, one definition for each production (`Expressions`, `Declarations`, `Statements`, `Programs`);
//! the tokens of a tree (`ExprTokens`, `DeclTokens`); the names of its items (`Names`, `Naming`), their places (`Paths`),
//! and their own texts (`Rows`).
#![tactic(auto)]

mod block_copies;
mod decl;
mod decl_copies;
mod expr;
mod expr_copies;
mod levels;
mod program;
mod stmt;
mod stmt_copies;
mod typing;

pub use block_copies::{
    copy_block, copy_decl, copy_decls, copy_labels, copy_program, copy_routine, copy_routines,
};
pub use decl::{Block, Decl, DeclKind, Heading, Routine, Section};
pub use decl_copies::{
    copy_constant, copy_constants, copy_decl_kind, copy_heading, copy_texts, copy_type,
};
pub use expr::{
    Access, AccessPart, AddOp, AddPart, Arg, Expr, Factor, MulOp, MulPart, Prefix, RelOp, RelPart,
    SetMember, SumExpr, Term,
};
pub use expr_copies::{copy_access, copy_accesses, copy_arg, copy_args, copy_expr};
pub use levels::LEVELS;
pub use program::{Header, Tree};
pub use stmt::{Arm, Constant, Stmt, StmtKind};
pub use stmt_copies::{
    copy_arm, copy_arms, copy_assign, copy_call, copy_stmt, copy_stmt_kind, copy_stmts, make_for,
};
pub use typing::{FieldText, TypeText};
