//! The kinds of all statements of a body, in the order of the text, and its first fault.
ghost use Rattle.std.specs.Prelude.{◌≡◌, ◌++◌, map, OnOk};
ghost use Rattle.check_rules.specs.Faults.{fault_at};
ghost use Rattle.check_body.specs.StatementRules as spec;
ghost use Rattle.check_body.specs.Statements as folds;

use crate::control::{enter_for, leave_for};
use crate::opening::{close_records, with_notes};
use crate::own::own_kind;
use crate::reach::{label_kind, reach_in, reach_within};
use check_rules::{CLEAN, CheckFault, least};
use dice_base::{Name, NoMemory};
use expression_rules::Env;
use pascal_tree::{Arm, Stmt, StmtKind};
use sqlite_items::Items;
use std::alloc::Global;

/// A statement by its name, and the least kind of fault in its own text.
#[derive(Clone, Copy)]
pub struct StatementKind {
    pub name: Name,
    pub kind: u8,
}

#[cycle(push_kinds)]
fn push_all(
    alloc: Global,
    labels: &[u16],
    env: &mut Env,
    stmts: &[Stmt],
    reach: &[u16],
    out: &mut Items<StatementKind>,
) -> Result<(), NoMemory>
    ensures value { OnOk result (out.new ≡ out.old ++ spec.all_kinds (map (folds.judge_of labels.now) stmts.now) env.old reach.now) }
    ensures kept { OnOk result (env.new ≡ env.old) }
{
    for stmt in stmts {
        push_kinds(alloc, labels, env, stmt, reach, out)?;
    }
    Ok(())
}

#[cycle(push_kinds)]
fn push_sequence(
    alloc: Global,
    labels: &[u16],
    env: &mut Env,
    stmts: &[Stmt],
    reach: &[u16],
    out: &mut Items<StatementKind>,
) -> Result<(), NoMemory>
    ensures value { OnOk result (out.new ≡ out.old ++ spec.all_kinds (map (folds.judge_of labels.now) stmts.now) env.old (spec.labels_of (map (folds.judge_of labels.now) stmts.now) ++ reach.now)) }
    ensures kept { OnOk result (env.new ≡ env.old) }
{
    let inside = reach_in(alloc, stmts, reach)?;
    push_all(alloc, labels, env, stmts, inside.as_slice(), out)
}

#[cycle(push_kinds)]
#[tactic(auto, unfolding(crate::specs::Statements::judge_of, crate::specs::Statements::arm_judge_of))]
fn push_arm(
    alloc: Global,
    labels: &[u16],
    env: &mut Env,
    arm: &Arm,
    reach: &[u16],
    out: &mut Items<StatementKind>,
) -> Result<(), NoMemory>
    ensures value { OnOk result (out.new ≡ out.old ++ (folds.arm_judge_of labels.now arm.now).body.kinds env.old reach.now) }
    ensures kept { OnOk result (env.new ≡ env.old) }
{
    push_kinds(alloc, labels, env, &arm.body, reach, out)
}

#[cycle(push_kinds)]
fn push_arms(
    alloc: Global,
    labels: &[u16],
    env: &mut Env,
    arms: &[Arm],
    reach: &[u16],
    out: &mut Items<StatementKind>,
) -> Result<(), NoMemory>
    ensures value { OnOk result (out.new ≡ out.old ++ spec.all_kinds (spec.arm_bodies (map (folds.arm_judge_of labels.now) arms.now)) env.old reach.now) }
    ensures kept { OnOk result (env.new ≡ env.old) }
{
    for arm in arms {
        push_arm(alloc, labels, env, arm, reach, out)?;
    }
    Ok(())
}

#[cycle(push_kinds)]
fn push_in_for(
    alloc: Global,
    labels: &[u16],
    env: &mut Env,
    body: &Stmt,
    reach: &[u16],
    out: &mut Items<StatementKind>,
) -> Result<(), NoMemory>
    ensures value { OnOk result (out.new ≡ out.old ++ (folds.judge_of labels.now body.now).kinds (spec.env_in_for env.old) reach.now) }
    ensures kept { OnOk result (env.new ≡ env.old) }
{
    let holds = env.holds;
    enter_for(env)?;
    push_kinds(alloc, labels, env, body, reach, out)?;
    leave_for(env, holds);
    Ok(())
}

#[cycle(push_kinds)]
#[tactic(auto, using(crate::proofs::Opened::closed_with), unfolding(crate::specs::Statements::judge_of, crate::specs::Statements::kind_judge_of, crate::specs::Statements::arm_judge_of))]
fn push_inner(
    alloc: Global,
    labels: &[u16],
    env: &mut Env,
    kind: &StmtKind,
    reach: &[u16],
    out: &mut Items<StatementKind>,
) -> Result<(), NoMemory>
    ensures value { OnOk result (out.new ≡ out.old ++ (folds.kind_judge_of labels.now kind.now).inner env.old reach.now) }
    ensures kept { OnOk result (env.new ≡ env.old) }
{
    match kind {
        StmtKind::Empty => Ok(()),
        StmtKind::Goto(_) => Ok(()),
        StmtKind::Assign(_, _) => Ok(()),
        StmtKind::Call(_, _) => Ok(()),
        StmtKind::Compound(stmts) => {
            push_sequence(alloc, labels, env, stmts.as_slice(), reach, out)
        }
        StmtKind::If(_, first, None) => push_kinds(alloc, labels, env, first.get(), reach, out),
        StmtKind::If(_, first, Some(second)) => {
            push_kinds(alloc, labels, env, first.get(), reach, out)?;
            push_kinds(alloc, labels, env, second.get(), reach, out)
        }
        StmtKind::Case(_, arms) => push_arms(alloc, labels, env, arms.as_slice(), reach, out),
        StmtKind::While(_, body) => push_kinds(alloc, labels, env, body.get(), reach, out),
        StmtKind::Repeat(stmts, _) => {
            push_sequence(alloc, labels, env, stmts.as_slice(), reach, out)
        }
        StmtKind::For(_, _, _, _, body) => {
            push_in_for(alloc, labels, env, body.get(), reach, out)
        }
        StmtKind::With(records, body) => {
            let count = env.opened.len();
            let holds = env.holds;
            with_notes(alloc, env, records.as_slice())?;
            push_kinds(alloc, labels, env, body.get(), reach, out)?;
            close_records(env, count, holds);
            Ok(())
        }
    }
}

/// Adds the kinds of a statement and of all in it, in the order of the text, where the block declares these labels and a
/// `goto` beside it may lead to those of `reach` (ISO 7185:1990, 6.8). With an error `env` and `out` may have changed.
#[cycle(push_kinds)]
#[tactic(auto, unfolding(crate::specs::Statements::judge_of, crate::specs::Statements::kind_judge_of))]
pub fn push_kinds(
    alloc: Global,
    labels: &[u16],
    env: &mut Env,
    stmt: &Stmt,
    reach: &[u16],
    out: &mut Items<StatementKind>,
) -> Result<(), NoMemory>
    ensures value { OnOk result (out.new ≡ out.old ++ (folds.judge_of labels.now stmt.now).kinds env.old reach.now) }
    ensures kept { OnOk result (env.new ≡ env.old) }
{
    let inside = reach_within(alloc, stmt.label, reach)?;
    let own = own_kind(alloc, labels, env, &stmt.kind, inside.as_slice())?;
    out.push(StatementKind {
        name: stmt.name,
        kind: least(label_kind(labels, stmt.label), own),
    })?;
    push_inner(alloc, labels, env, &stmt.kind, inside.as_slice(), out)
}

fn fault_at(statement: StatementKind) -> Option<CheckFault>
    ensures { result ≡ fault_at statement.name statement.kind }
{
    if statement.kind < CLEAN {
        Some(CheckFault {
            kind: statement.kind,
            name: statement.name,
        })
    } else {
        None
    }
}

/// The first fault of these statements.
pub fn first_fault(kinds: &[StatementKind]) -> Option<CheckFault>
    ensures { result ≡ spec.first_fault kinds.now }
{
    for statement in kinds {
        if let Some(fault) = fault_at(*statement) {
            return Some(fault);
        }
    }
    None
}
