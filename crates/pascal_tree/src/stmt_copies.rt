//! Exact copies of statements.
ghost use Rattle.std.specs.Prelude.{◌≡◌, IfOk};

use crate::decl_copies::copy_constants;
use crate::expr_copies::{copy_access, copy_accesses, copy_args, copy_expr};
use crate::{Access, Arg, Arm, Expr, Stmt, StmtKind};
use dice_base::{NoMemory, Text};
use sqlite_items::{Boxed, Items};
use std::alloc::Global;

/// A copy of the parts of an assignment, put together.
pub fn copy_assign(alloc: Global, access: &Access, value: &Expr) -> Result<StmtKind, NoMemory>
    ensures { IfOk result (λ x. x ≡ StmtKind.Assign access.now value.now) }
{
    let access = copy_access(alloc, access)?;
    let value = copy_expr(alloc, value)?;
    Ok(StmtKind::Assign(access, value))
}

/// A copy of the parts of a procedure statement, put together.
pub fn copy_call(alloc: Global, ident: &Text, args: &[Arg]) -> Result<StmtKind, NoMemory>
    ensures { IfOk result (λ x. x ≡ StmtKind.Call ident.now args.now) }
{
    let ident = ident.copy(alloc)?;
    let args = copy_args(alloc, args)?;
    Ok(StmtKind::Call(ident, args))
}

/// A `for` statement with copies of all its parts but the body.
pub fn make_for(
    alloc: Global,
    ident: &Text,
    first: &Expr,
    down: bool,
    last: &Expr,
    body: Boxed<Stmt>,
) -> Result<StmtKind, NoMemory>
    ensures { IfOk result (λ x. x ≡ StmtKind.For ident.now first.now down last.now body) }
{
    let ident = ident.copy(alloc)?;
    let first = copy_expr(alloc, first)?;
    let last = copy_expr(alloc, last)?;
    Ok(StmtKind::For(ident, first, down, last, body))
}

#[cycle(copy_stmt)]
fn copy_boxed(alloc: Global, stmt: &Stmt) -> Result<Boxed<Stmt>, NoMemory>
    ensures { IfOk result (λ x. x ≡ stmt.now) }
{
    let stmt = copy_stmt(alloc, stmt)?;
    let stmt = Boxed::new(alloc, stmt)?;
    Ok(stmt)
}

#[cycle(copy_stmt)]
fn copy_if(alloc: Global, yes: &Stmt, test: &Expr) -> Result<StmtKind, NoMemory>
    ensures { IfOk result (λ x. x ≡ StmtKind.If test.now yes.now None) }
{
    let yes = copy_boxed(alloc, yes)?;
    let test = copy_expr(alloc, test)?;
    Ok(StmtKind::If(test, yes, None))
}

#[cycle(copy_stmt)]
fn copy_case(alloc: Global, arms: &[Arm], selector: &Expr) -> Result<StmtKind, NoMemory>
    ensures { IfOk result (λ x. x ≡ StmtKind.Case selector.now arms.now) }
{
    let arms = copy_arms(alloc, arms)?;
    let selector = copy_expr(alloc, selector)?;
    Ok(StmtKind::Case(selector, arms))
}

#[cycle(copy_stmt)]
fn copy_while(alloc: Global, body: &Stmt, test: &Expr) -> Result<StmtKind, NoMemory>
    ensures { IfOk result (λ x. x ≡ StmtKind.While test.now body.now) }
{
    let body = copy_boxed(alloc, body)?;
    let test = copy_expr(alloc, test)?;
    Ok(StmtKind::While(test, body))
}

#[cycle(copy_stmt)]
fn copy_repeat(alloc: Global, stmts: &[Stmt], test: &Expr) -> Result<StmtKind, NoMemory>
    ensures { IfOk result (λ x. x ≡ StmtKind.Repeat stmts.now test.now) }
{
    let stmts = copy_stmts(alloc, stmts)?;
    let test = copy_expr(alloc, test)?;
    Ok(StmtKind::Repeat(stmts, test))
}

#[cycle(copy_stmt)]
fn copy_for(
    alloc: Global,
    body: &Stmt,
    ident: &Text,
    first: &Expr,
    down: bool,
    last: &Expr,
) -> Result<StmtKind, NoMemory>
    ensures { IfOk result (λ x. x ≡ StmtKind.For ident.now first.now down last.now body.now) }
{
    let body = copy_boxed(alloc, body)?;
    make_for(alloc, ident, first, down, last, body)
}

#[cycle(copy_stmt)]
fn copy_with(alloc: Global, body: &Stmt, records: &[Access]) -> Result<StmtKind, NoMemory>
    ensures { IfOk result (λ x. x ≡ StmtKind.With records.now body.now) }
{
    let body = copy_boxed(alloc, body)?;
    let records = copy_accesses(alloc, records)?;
    Ok(StmtKind::With(records, body))
}

/// A copy of a statement.
#[cycle(copy_stmt)]
pub fn copy_stmt(alloc: Global, stmt: &Stmt) -> Result<Stmt, NoMemory>
    ensures { IfOk result (λ x. x ≡ stmt.now) }
{
    let name = stmt.name;
    let label = stmt.label;
    let kind = copy_stmt_kind(alloc, &stmt.kind)?;
    Ok(Stmt { name, label, kind })
}

/// A copy of what a statement says.
#[cycle(copy_stmt)]
pub fn copy_stmt_kind(alloc: Global, kind: &StmtKind) -> Result<StmtKind, NoMemory>
    ensures { IfOk result (λ x. x ≡ kind.now) }
{
    match kind {
        StmtKind::Empty => Ok(StmtKind::Empty),
        StmtKind::Assign(access, value) => copy_assign(alloc, access, value),
        StmtKind::Call(ident, args) => copy_call(alloc, ident, args.as_slice()),
        StmtKind::Goto(label) => Ok(StmtKind::Goto(*label)),
        StmtKind::Compound(stmts) => {
            let stmts = copy_stmts(alloc, stmts.as_slice())?;
            Ok(StmtKind::Compound(stmts))
        }
        StmtKind::If(test, yes, None) => copy_if(alloc, yes.get(), test),
        StmtKind::If(test, yes, Some(no)) => {
            let yes = copy_boxed(alloc, yes.get())?;
            let no = copy_boxed(alloc, no.get())?;
            let test = copy_expr(alloc, test)?;
            Ok(StmtKind::If(test, yes, Some(no)))
        }
        StmtKind::Case(selector, arms) => copy_case(alloc, arms.as_slice(), selector),
        StmtKind::While(test, body) => copy_while(alloc, body.get(), test),
        StmtKind::Repeat(stmts, test) => copy_repeat(alloc, stmts.as_slice(), test),
        StmtKind::For(ident, first, down, last, body) => {
            copy_for(alloc, body.get(), ident, first, *down, last)
        }
        StmtKind::With(records, body) => copy_with(alloc, body.get(), records.as_slice()),
    }
}

/// A copy of a list of statements.
#[cycle(copy_stmt)]
pub fn copy_stmts(alloc: Global, stmts: &[Stmt]) -> Result<Items<Stmt>, NoMemory>
    ensures { IfOk result (λ all. all ≡ stmts.now) }
{
    let mut all = Items::new(alloc);
    for stmt in stmts {
        all.push(copy_stmt(alloc, stmt)?)?;
    }
    Ok(all)
}

/// A copy of an arm of a `case` statement.
#[cycle(copy_stmt)]
pub fn copy_arm(alloc: Global, arm: &Arm) -> Result<Arm, NoMemory>
    ensures { IfOk result (λ x. x ≡ arm.now) }
{
    let constants = copy_constants(alloc, arm.constants.as_slice())?;
    let body = copy_stmt(alloc, &arm.body)?;
    Ok(Arm { constants, body })
}

/// A copy of a list of arms.
#[cycle(copy_stmt)]
pub fn copy_arms(alloc: Global, arms: &[Arm]) -> Result<Items<Arm>, NoMemory>
    ensures { IfOk result (λ all. all ≡ arms.now) }
{
    let mut all = Items::new(alloc);
    for arm in arms {
        all.push(copy_arm(alloc, arm)?)?;
    }
    Ok(all)
}
