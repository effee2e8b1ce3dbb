//! A copy of a statement with another statement at a path.
ghost use Rattle.std.specs.Prelude.{◌≡◌, IfOk};
ghost use Rattle.pascal_tree.specs.declared.stmt.StmtKind.{out-StmtKind};
ghost use Rattle.tree_edit.specs.Place as spec;

use dice_base::NoMemory;
use pascal_tree::{
    Access, Arm, Expr, Stmt, StmtKind, copy_accesses, copy_arms, copy_constants, copy_expr,
    copy_stmt, copy_stmt_kind, copy_stmts, make_for,
};
use sqlite_items::{Boxed, Items, at as item_at};
use std::alloc::Global;

#[cycle(put_stmt)]
fn put_list(
    alloc: Global,
    stmts: &[Stmt],
    at: usize,
    path: &[u32],
    new: &Stmt,
) -> Result<Items<Stmt>, NoMemory>
    ensures { IfOk result (λ all. all ≡ spec.change (spec.put_at path.now new.now) at stmts.now) }
{
    let Some(stmt) = item_at(stmts, at) else {
        let all = copy_stmts(alloc, stmts)?;
        return Ok(all);
    };
    let mut all = copy_stmts(alloc, &stmts[..at])?;
    all.push(put_stmt(alloc, stmt, path, new)?)?;
    let rest = copy_stmts(alloc, &stmts[at + 1..])?;
    all.append(rest)?;
    Ok(all)
}

#[cycle(put_stmt)]
fn put_arm(alloc: Global, arm: &Arm, path: &[u32], new: &Stmt) -> Result<Arm, NoMemory>
    ensures { IfOk result (λ r. r ≡ spec.change_in_arm (spec.put_at path.now new.now) arm.now) }
{
    let constants = copy_constants(alloc, arm.constants.as_slice())?;
    let body = put_stmt(alloc, &arm.body, path, new)?;
    Ok(Arm { constants, body })
}

#[cycle(put_stmt)]
fn put_arms(
    alloc: Global,
    arms: &[Arm],
    at: usize,
    path: &[u32],
    new: &Stmt,
) -> Result<Items<Arm>, NoMemory>
    ensures { IfOk result (λ all. all ≡ spec.change (spec.change_in_arm (spec.put_at path.now new.now)) at arms.now) }
{
    let Some(arm) = item_at(arms, at) else {
        let all = copy_arms(alloc, arms)?;
        return Ok(all);
    };
    let mut all = copy_arms(alloc, &arms[..at])?;
    all.push(put_arm(alloc, arm, path, new)?)?;
    let rest = copy_arms(alloc, &arms[at + 1..])?;
    all.append(rest)?;
    Ok(all)
}

// A statement in the place at the path, where the path enters part `at` of the statement and that part is `own`.
#[cycle(put_stmt)]
pub fn put_boxed(
    alloc: Global,
    stmt: &Stmt,
    at: usize,
    own: usize,
    path: &[u32],
    new: &Stmt,
) -> Result<Boxed<Stmt>, NoMemory>
    ensures { IfOk result (λ r. r ≡ spec.change_if (spec.put_at path.now new.now) at own stmt.now) }
{
    if at == own {
        let stmt = put_stmt(alloc, stmt, path, new)?;
        let stmt = Boxed::new(alloc, stmt)?;
        return Ok(stmt);
    }
    let stmt = copy_stmt(alloc, stmt)?;
    let stmt = Boxed::new(alloc, stmt)?;
    Ok(stmt)
}

fn make_if(
    alloc: Global,
    test: &Expr,
    yes: Boxed<Stmt>,
    no: Option<Boxed<Stmt>>,
) -> Result<StmtKind, NoMemory>
    ensures { IfOk result (λ r. r ≡ StmtKind.If test.now yes no) }
{
    let test = copy_expr(alloc, test)?;
    Ok(StmtKind::If(test, yes, no))
}

fn make_case(alloc: Global, selector: &Expr, arms: Items<Arm>) -> Result<StmtKind, NoMemory>
    ensures { IfOk result (λ r. r ≡ StmtKind.Case selector.now arms) }
{
    let selector = copy_expr(alloc, selector)?;
    Ok(StmtKind::Case(selector, arms))
}

fn make_while(alloc: Global, test: &Expr, body: Boxed<Stmt>) -> Result<StmtKind, NoMemory>
    ensures { IfOk result (λ r. r ≡ StmtKind.While test.now body) }
{
    let test = copy_expr(alloc, test)?;
    Ok(StmtKind::While(test, body))
}

fn make_repeat(alloc: Global, stmts: Items<Stmt>, test: &Expr) -> Result<StmtKind, NoMemory>
    ensures { IfOk result (λ r. r ≡ StmtKind.Repeat stmts test.now) }
{
    let test = copy_expr(alloc, test)?;
    Ok(StmtKind::Repeat(stmts, test))
}

fn make_with(alloc: Global, records: &[Access], body: Boxed<Stmt>) -> Result<StmtKind, NoMemory>
    ensures { IfOk result (λ r. r ≡ StmtKind.With records.now body) }
{
    let records = copy_accesses(alloc, records)?;
    Ok(StmtKind::With(records, body))
}

// The kind of a statement, with the new one in the place at the path from part `at`.
#[cycle(put_stmt)]
fn put_kind(
    alloc: Global,
    kind: &StmtKind,
    at: usize,
    path: &[u32],
    new: &Stmt,
) -> Result<StmtKind, NoMemory>
    ensures { IfOk result (λ r. r ≡ spec.change_in_kind (spec.put_at path.now new.now) at (out-StmtKind kind.now)) }
{
    match kind {
        StmtKind::Compound(stmts) => {
            let stmts = put_list(alloc, stmts.as_slice(), at, path, new)?;
            Ok(StmtKind::Compound(stmts))
        }
        StmtKind::If(test, yes, None) => {
            let yes = put_boxed(alloc, yes.get(), at, 0, path, new)?;
            make_if(alloc, test, yes, None)
        }
        StmtKind::If(test, yes, Some(no)) => {
            let yes = put_boxed(alloc, yes.get(), at, 0, path, new)?;
            let no = put_boxed(alloc, no.get(), at, 1, path, new)?;
            make_if(alloc, test, yes, Some(no))
        }
        StmtKind::Case(selector, arms) => {
            let arms = put_arms(alloc, arms.as_slice(), at, path, new)?;
            make_case(alloc, selector, arms)
        }
        StmtKind::While(test, body) => {
            let body = put_boxed(alloc, body.get(), at, 0, path, new)?;
            make_while(alloc, test, body)
        }
        StmtKind::Repeat(stmts, test) => {
            let stmts = put_list(alloc, stmts.as_slice(), at, path, new)?;
            make_repeat(alloc, stmts, test)
        }
        StmtKind::For(ident, first, down, last, body) => {
            let body = put_boxed(alloc, body.get(), at, 0, path, new)?;
            make_for(alloc, ident, first, *down, last, body)
        }
        StmtKind::With(records, body) => {
            let body = put_boxed(alloc, body.get(), at, 0, path, new)?;
            make_with(alloc, records.as_slice(), body)
        }
        StmtKind::Empty => Ok(StmtKind::Empty),
        StmtKind::Assign(_, _) => copy_stmt_kind(alloc, kind),
        StmtKind::Call(_, _) => copy_stmt_kind(alloc, kind),
        StmtKind::Goto(label) => Ok(StmtKind::Goto(*label)),
    }
}

/// A copy of a statement, with the new one in the place at the path.
#[cycle(put_stmt)]
pub fn put_stmt(alloc: Global, stmt: &Stmt, path: &[u32], new: &Stmt) -> Result<Stmt, NoMemory>
    ensures { IfOk result (λ r. r ≡ spec.put_at path.now new.now stmt.now) }
{
    let [at, path @ ..] = path else {
        return copy_stmt(alloc, new);
    };
    let name = stmt.name;
    let label = stmt.label;
    let kind = put_kind(alloc, &stmt.kind, *at as usize, path, new)?;
    Ok(Stmt { name, label, kind })
}
