//! How many levels a statement takes.
ghost use Rattle.std.specs.Prelude.{◌≡◌, ◌+◌, max, map, IfOk};
ghost use Rattle.pascal_tree.specs.Depth as spec;

use crate::depth::{access_depth, args_depth, expr_depth};
use dice_base::{NoMemory, one_more};
use pascal_tree::{Access, Arm, Expr, Stmt, StmtKind};

fn assign_depth(access: &Access, value: &Expr) -> Result<u32, NoMemory>
    ensures { IfOk result (λ n. n ≡ max (spec.access_depth access.now) (spec.expr_depth value.now)) }
{
    let access = access_depth(access)?;
    let value = expr_depth(value)?;
    Ok(access.max(value))
}

fn accesses_depth(accesses: &[Access]) -> Result<u32, NoMemory>
    ensures { IfOk result (λ n. n ≡ spec.most (map spec.access_depth accesses.now)) }
{
    let mut most = 0;
    for access in accesses {
        let levels = access_depth(access)?;
        most = most.max(levels);
    }
    Ok(most)
}

// An expression, and what stands one level below it.
fn with_inner(expr: &Expr, inner: u32) -> Result<u32, NoMemory>
    ensures { IfOk result (λ n. n ≡ max (spec.expr_depth expr.now) (inner + 1)) }
{
    let expr = expr_depth(expr)?;
    let inner = one_more(inner)?;
    Ok(expr.max(inner))
}

fn for_depth(first: &Expr, last: &Expr, inner: u32) -> Result<u32, NoMemory>
    ensures { let ends = max (spec.expr_depth first.now) (spec.expr_depth last.now) in
        IfOk result (λ n. n ≡ max ends (inner + 1)) }
{
    let first = expr_depth(first)?;
    let last = expr_depth(last)?;
    let inner = one_more(inner)?;
    Ok(first.max(last).max(inner))
}

fn with_depth(records: &[Access], inner: u32) -> Result<u32, NoMemory>
    ensures { IfOk result (λ n. n ≡ max (spec.most (map spec.access_depth records.now)) (inner + 1)) }
{
    let records = accesses_depth(records)?;
    let inner = one_more(inner)?;
    Ok(records.max(inner))
}

#[cycle(stmt_depth)]
fn stmts_depth(stmts: &[Stmt]) -> Result<u32, NoMemory>
    ensures { IfOk result (λ n. n ≡ spec.most (map spec.stmt_depth stmts.now)) }
{
    let mut most = 0;
    for stmt in stmts {
        let levels = stmt_depth(stmt)?;
        most = most.max(levels);
    }
    Ok(most)
}

#[cycle(stmt_depth)]
#[tactic(auto, unfolding(pascal_tree::specs::Depth::arm_depth, pascal_tree::specs::Depth::stmt_depth, pascal_tree::specs::Depth::kind_depth))]
fn arm_depth(arm: &Arm) -> Result<u32, NoMemory>
    ensures { IfOk result (λ n. n ≡ spec.arm_depth arm.now) }
{
    stmt_depth(&arm.body)
}

#[cycle(stmt_depth)]
fn arms_depth(arms: &[Arm]) -> Result<u32, NoMemory>
    ensures { IfOk result (λ n. n ≡ spec.most (map spec.arm_depth arms.now)) }
{
    let mut most = 0;
    for arm in arms {
        let levels = arm_depth(arm)?;
        most = most.max(levels);
    }
    Ok(most)
}

#[cycle(stmt_depth)]
#[tactic(auto, unfolding(pascal_tree::specs::Depth::stmt_depth, pascal_tree::specs::Depth::kind_depth, pascal_tree::specs::Depth::arm_depth))]
fn kind_depth(kind: &StmtKind) -> Result<u32, NoMemory>
    ensures { IfOk result (λ n. n ≡ spec.kind_depth kind.now) }
{
    match kind {
        StmtKind::Empty => Ok(1),
        StmtKind::Assign(access, value) => assign_depth(access, value),
        StmtKind::Call(_, args) => {
            let inner = args_depth(args.as_slice())?;
            one_more(inner)
        }
        StmtKind::Goto(_) => Ok(1),
        StmtKind::Compound(stmts) => {
            let inner = stmts_depth(stmts.as_slice())?;
            one_more(inner)
        }
        StmtKind::If(test, yes, None) => {
            let inner = stmt_depth(yes.get())?;
            with_inner(test, inner)
        }
        StmtKind::If(test, yes, Some(no)) => {
            let yes = stmt_depth(yes.get())?;
            let no = stmt_depth(no.get())?;
            with_inner(test, yes.max(no))
        }
        StmtKind::Case(selector, arms) => {
            let inner = arms_depth(arms.as_slice())?;
            with_inner(selector, inner)
        }
        StmtKind::While(test, body) => {
            let inner = stmt_depth(body.get())?;
            with_inner(test, inner)
        }
        StmtKind::Repeat(stmts, test) => {
            let inner = stmts_depth(stmts.as_slice())?;
            with_inner(test, inner)
        }
        StmtKind::For(_, first, _, last, body) => {
            let inner = stmt_depth(body.get())?;
            for_depth(first, last, inner)
        }
        StmtKind::With(records, body) => {
            let inner = stmt_depth(body.get())?;
            with_depth(records.as_slice(), inner)
        }
    }
}

/// The levels that a statement takes, with its own.
#[cycle(stmt_depth)]
#[tactic(auto, unfolding(pascal_tree::specs::Depth::stmt_depth, pascal_tree::specs::Depth::kind_depth, pascal_tree::specs::Depth::arm_depth))]
pub fn stmt_depth(stmt: &Stmt) -> Result<u32, NoMemory>
    ensures { IfOk result (λ n. n ≡ spec.stmt_depth stmt.now) }
{
    kind_depth(&stmt.kind)
}
