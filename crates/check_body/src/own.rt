//! What a statement says by its own text.
ghost use Rattle.std.specs.Prelude.{◌≡◌, IfOk, OnOk};
ghost use Rattle.expression_rules.specs.Expressions as exprs;
ghost use Rattle.check_body.specs.StatementRules as spec;
ghost use Rattle.check_body.specs.Statements as folds;
ghost use Rattle.check_body.specs.Steps as steps;

use crate::assign::{assignment_notes, condition_kind};
use crate::calls::call_notes;
use crate::cases::case_kind;
use crate::changes::push_changes;
use crate::control::{enter_for, for_kind, leave_for};
use crate::opening::with_kind;
use crate::reach::goto_kind;
use check_rules::CLEAN;
use dice_base::{NoMemory, Text};
use expression_rules::Env;
use pascal_tree::{Expr, Stmt, StmtKind};
use sqlite_items::Items;
use std::alloc::Global;

// What the body of a `for` changes.
fn changes_inside(
    alloc: Global,
    labels: &[u16],
    env: &mut Env,
    body: &Stmt,
) -> Result<Items<(u32, Text)>, NoMemory>
    ensures value { IfOk result (λ c. c ≡ (folds.judge_of labels.now body.now).changes (spec.env_in_for env.old)) }
    ensures kept { OnOk result (env.new ≡ env.old) }
{
    let mut inside = Items::new(alloc);
    let holds = env.holds;
    enter_for(env)?;
    push_changes(alloc, labels, env, body, &mut inside)?;
    leave_for(env, holds);
    Ok(inside)
}

fn looping_kind(
    alloc: Global,
    labels: &[u16],
    env: &mut Env,
    ident: &Text,
    first: &Expr,
    last: &Expr,
    body: &Stmt,
) -> Result<u8, NoMemory>
    ensures value { IfOk result (λ k. k ≡ steps.for_kind env.old ident.now ((folds.judge_of labels.now body.now).changes (spec.env_in_for env.old)) (exprs.judgement_of env.old first.now) (exprs.judgement_of env.old last.now)) }
    ensures kept { OnOk result (env.new ≡ env.old) }
{
    let inside = changes_inside(alloc, labels, env, body)?;
    for_kind(alloc, env, ident.bytes(), inside.as_slice(), first, last)
}

/// The least kind of fault that a statement of this kind has by its own text (ISO 7185:1990, 6.8). Its block declares
/// `labels`, and a `goto` may lead to those of `reach`. With an error `env` may have changed.
#[tactic(auto, using(crate::proofs::Layers::arms_are), unfolding(crate::specs::Statements::judge_of, crate::specs::Statements::kind_judge_of, crate::specs::Statements::arm_judge_of))]
pub fn own_kind(
    alloc: Global,
    labels: &[u16],
    env: &mut Env,
    kind: &StmtKind,
    reach: &[u16],
) -> Result<u8, NoMemory>
    ensures value { IfOk result (λ k. k ≡ (folds.kind_judge_of labels.now kind.now).own env.old reach.now) }
    ensures kept { OnOk result (env.new ≡ env.old) }
{
    match kind {
        StmtKind::Empty => Ok(CLEAN),
        StmtKind::Compound(_) => Ok(CLEAN),
        StmtKind::Goto(label) => Ok(goto_kind(reach, *label)),
        StmtKind::Assign(access, expr) => {
            let notes = assignment_notes(alloc, env, access, expr)?;
            Ok(notes.kind)
        }
        StmtKind::Call(ident, args) => {
            let notes = call_notes(alloc, env, ident.bytes(), args.as_slice())?;
            Ok(notes.kind)
        }
        StmtKind::If(expr, _, None) => condition_kind(alloc, env, expr),
        StmtKind::If(expr, _, Some(_)) => condition_kind(alloc, env, expr),
        StmtKind::Case(expr, arms) => case_kind(alloc, env, expr, arms.as_slice()),
        StmtKind::While(expr, _) => condition_kind(alloc, env, expr),
        StmtKind::Repeat(_, expr) => condition_kind(alloc, env, expr),
        StmtKind::For(ident, first, _, last, body) => {
            looping_kind(alloc, labels, env, ident, first, last, body.get())
        }
        StmtKind::With(records, _) => with_kind(alloc, env, records.as_slice()),
    }
}
