//! The variables that statements change, with all in them.
ghost use Rattle.std.specs.Prelude.{◌≡◌, ◌++◌, map, OnOk};
ghost use Rattle.expression_rules.specs.Expressions as exprs;
ghost use Rattle.check_body.specs.StatementRules as spec;
ghost use Rattle.check_body.specs.Statements as folds;

use crate::assign::assignment_notes;
use crate::calls::call_notes;
use crate::control::{enter_for, for_changes, leave_for};
use crate::opening::{close_records, with_notes};
use check_expr::judgement_of;
use dice_base::{NoMemory, Text};
use expression_rules::Env;
use pascal_tree::{Access, Arg, Arm, Expr, Stmt, StmtKind};
use sqlite_items::Items;
use std::alloc::Global;

fn push_assigned(
    alloc: Global,
    env: &Env,
    access: &Access,
    expr: &Expr,
    out: &mut Items<(u32, Text)>,
) -> Result<(), NoMemory>
    ensures { OnOk result (out.new ≡ out.old ++ (spec.assignment_notes env.now (exprs.access_of env.now access.now) (exprs.judgement_of env.now expr.now)).passed) }
{
    let notes = assignment_notes(alloc, env, access, expr)?;
    out.append(notes.passed)?;
    Ok(())
}

fn push_called(
    alloc: Global,
    env: &Env,
    ident: &Text,
    args: &[Arg],
    out: &mut Items<(u32, Text)>,
) -> Result<(), NoMemory>
    ensures { OnOk result (out.new ≡ out.old ++ (spec.call_notes env.now ident.now (map (exprs.argument_of env.now) args.now)).passed) }
{
    let notes = call_notes(alloc, env, ident.bytes(), args)?;
    out.append(notes.passed)?;
    Ok(())
}

fn push_valued(
    alloc: Global,
    env: &Env,
    expr: &Expr,
    out: &mut Items<(u32, Text)>,
) -> Result<(), NoMemory>
    ensures { OnOk result (out.new ≡ out.old ++ (exprs.judgement_of env.now expr.now).notes.passed) }
{
    let value = judgement_of(alloc, env, expr)?;
    out.append(value.notes.passed)?;
    Ok(())
}

fn push_for(
    alloc: Global,
    env: &Env,
    ident: &Text,
    first: &Expr,
    last: &Expr,
    out: &mut Items<(u32, Text)>,
) -> Result<(), NoMemory>
    ensures { OnOk result (out.new ≡ out.old ++ spec.for_changes env.now ident.now (exprs.judgement_of env.now first.now) (exprs.judgement_of env.now last.now)) }
{
    let changes = for_changes(alloc, env, ident, first, last)?;
    out.append(changes)?;
    Ok(())
}

fn push_opened(
    alloc: Global,
    env: &mut Env,
    records: &[Access],
    out: &mut Items<(u32, Text)>,
) -> Result<(), NoMemory>
    ensures value { OnOk result (out.new ≡ out.old ++ (spec.with_notes env.old (map folds.access_judge records.now)).passed) }
    ensures opened { OnOk result (env.new ≡ spec.env_with_all env.old (map folds.access_judge records.now)) }
{
    let notes = with_notes(alloc, env, records)?;
    out.append(notes.passed)?;
    Ok(())
}

#[cycle(push_changes)]
fn push_all(
    alloc: Global,
    labels: &[u16],
    env: &mut Env,
    stmts: &[Stmt],
    out: &mut Items<(u32, Text)>,
) -> Result<(), NoMemory>
    ensures value { OnOk result (out.new ≡ out.old ++ spec.all_changes (map (folds.judge_of labels.now) stmts.now) env.old) }
    ensures kept { OnOk result (env.new ≡ env.old) }
{
    for stmt in stmts {
        push_changes(alloc, labels, env, stmt, out)?;
    }
    Ok(())
}

#[cycle(push_changes)]
#[tactic(auto, unfolding(crate::specs::Statements::judge_of, crate::specs::Statements::arm_judge_of))]
fn push_arm(
    alloc: Global,
    labels: &[u16],
    env: &mut Env,
    arm: &Arm,
    out: &mut Items<(u32, Text)>,
) -> Result<(), NoMemory>
    ensures value { OnOk result (out.new ≡ out.old ++ (folds.arm_judge_of labels.now arm.now).body.changes env.old) }
    ensures kept { OnOk result (env.new ≡ env.old) }
{
    push_changes(alloc, labels, env, &arm.body, out)
}

#[cycle(push_changes)]
fn push_arms(
    alloc: Global,
    labels: &[u16],
    env: &mut Env,
    arms: &[Arm],
    out: &mut Items<(u32, Text)>,
) -> Result<(), NoMemory>
    ensures value { OnOk result (out.new ≡ out.old ++ spec.all_changes (spec.arm_bodies (map (folds.arm_judge_of labels.now) arms.now)) env.old) }
    ensures kept { OnOk result (env.new ≡ env.old) }
{
    for arm in arms {
        push_arm(alloc, labels, env, arm, out)?;
    }
    Ok(())
}

#[cycle(push_changes)]
fn push_in_for(
    alloc: Global,
    labels: &[u16],
    env: &mut Env,
    body: &Stmt,
    out: &mut Items<(u32, Text)>,
) -> Result<(), NoMemory>
    ensures value { OnOk result (out.new ≡ out.old ++ (folds.judge_of labels.now body.now).changes (spec.env_in_for env.old)) }
    ensures kept { OnOk result (env.new ≡ env.old) }
{
    let holds = env.holds;
    enter_for(env)?;
    push_changes(alloc, labels, env, body, out)?;
    leave_for(env, holds);
    Ok(())
}

#[cycle(push_changes)]
#[tactic(auto, using(crate::proofs::Opened::closed_with), unfolding(crate::specs::Statements::judge_of, crate::specs::Statements::kind_judge_of, crate::specs::Statements::arm_judge_of))]
fn push_kind(
    alloc: Global,
    labels: &[u16],
    env: &mut Env,
    kind: &StmtKind,
    out: &mut Items<(u32, Text)>,
) -> Result<(), NoMemory>
    ensures value { OnOk result (out.new ≡ out.old ++ (folds.kind_judge_of labels.now kind.now).changes env.old) }
    ensures kept { OnOk result (env.new ≡ env.old) }
{
    match kind {
        StmtKind::Empty => Ok(()),
        StmtKind::Goto(_) => Ok(()),
        StmtKind::Assign(access, expr) => push_assigned(alloc, env, access, expr, out),
        StmtKind::Call(ident, args) => push_called(alloc, env, ident, args.as_slice(), out),
        StmtKind::Compound(stmts) => push_all(alloc, labels, env, stmts.as_slice(), out),
        StmtKind::If(expr, first, None) => {
            push_valued(alloc, env, expr, out)?;
            push_changes(alloc, labels, env, first.get(), out)
        }
        StmtKind::If(expr, first, Some(second)) => {
            push_valued(alloc, env, expr, out)?;
            push_changes(alloc, labels, env, first.get(), out)?;
            push_changes(alloc, labels, env, second.get(), out)
        }
        StmtKind::Case(expr, arms) => {
            push_valued(alloc, env, expr, out)?;
            push_arms(alloc, labels, env, arms.as_slice(), out)
        }
        StmtKind::While(expr, body) => {
            push_valued(alloc, env, expr, out)?;
            push_changes(alloc, labels, env, body.get(), out)
        }
        StmtKind::Repeat(stmts, expr) => {
            push_valued(alloc, env, expr, out)?;
            push_all(alloc, labels, env, stmts.as_slice(), out)
        }
        StmtKind::For(ident, first, _, last, body) => {
            push_for(alloc, env, ident, first, last, out)?;
            push_in_for(alloc, labels, env, body.get(), out)
        }
        StmtKind::With(records, body) => {
            let count = env.opened.len();
            let holds = env.holds;
            push_opened(alloc, env, records.as_slice(), out)?;
            push_changes(alloc, labels, env, body.get(), out)?;
            close_records(env, count, holds);
            Ok(())
        }
    }
}

/// Adds the variables that a statement changes, with all in it, each by its owner and its identifier: those that are
/// assigned, read into, passed by their places or control a `for` (ISO 7185:1990, 6.8.3.9). `labels` are those that its
/// block declares. With an error `env` and `out` may have changed.
#[cycle(push_changes)]
#[tactic(auto, unfolding(crate::specs::Statements::judge_of, crate::specs::Statements::kind_judge_of))]
pub fn push_changes(
    alloc: Global,
    labels: &[u16],
    env: &mut Env,
    stmt: &Stmt,
    out: &mut Items<(u32, Text)>,
) -> Result<(), NoMemory>
    ensures value { OnOk result (out.new ≡ out.old ++ (folds.judge_of labels.now stmt.now).changes env.old) }
    ensures kept { OnOk result (env.new ≡ env.old) }
{
    push_kind(alloc, labels, env, &stmt.kind, out)
}
