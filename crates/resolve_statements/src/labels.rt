//! Labels, and the statements at which control goes on after a `goto` to them (ISO 7185:1990, 6.8.1 and 6.8.2.4).
ghost use Rattle.resolve_statements.specs.Tables as tables;
ghost use Rattle.std.specs.Prelude.{OnOk};

use crate::entries::entry_of;
use core_tree::CoreLabel;
use dice_base::NoMemory;
use pascal_tree::{Arm, Stmt, StmtKind};
use sqlite_items::Items;

// The label of a statement by itself.
fn push_own(stmt: &Stmt, out: &mut Items<CoreLabel>) -> Result<(), NoMemory>
    ensures { OnOk result (tables.AreLabels out.old out.new (tables.own_labels stmt.now)) }
{
    match stmt.label {
        None => Ok(()),
        Some(label) => {
            let entry = entry_of(stmt);
            out.push(CoreLabel { label, entry })?;
            Ok(())
        }
    }
}

#[cycle(labels)]
fn push_all(stmts: &[Stmt], out: &mut Items<CoreLabel>) -> Result<(), NoMemory>
    ensures { OnOk result (tables.AreLabels out.old out.new (tables.labels_over (tables.stmts_in stmts.now))) }
{
    for stmt in stmts {
        push_labels(stmt, out)?;
    }
    Ok(())
}

#[cycle(labels)]
fn push_arm(arm: &Arm, out: &mut Items<CoreLabel>) -> Result<(), NoMemory>
    ensures { OnOk result (tables.AreLabels out.old out.new (tables.arm_labels arm.now)) }
{
    push_labels(&arm.body, out)
}

#[cycle(labels)]
fn push_arms(arms: &[Arm], out: &mut Items<CoreLabel>) -> Result<(), NoMemory>
    ensures { OnOk result (tables.AreLabels out.old out.new (tables.labels_over (tables.arms_in arms.now))) }
{
    for arm in arms {
        push_arm(arm, out)?;
    }
    Ok(())
}

#[cycle(labels)]
fn push_inner(kind: &StmtKind, out: &mut Items<CoreLabel>) -> Result<(), NoMemory>
    ensures { OnOk result (tables.AreLabels out.old out.new (tables.labels_over (tables.inner_in kind.now))) }
{
    match kind {
        StmtKind::Compound(stmts) => push_all(stmts.as_slice(), out),
        StmtKind::If(_, first, other) => {
            push_labels(first.get(), out)?;
            match other {
                None => Ok(()),
                Some(second) => push_labels(second.get(), out),
            }
        }
        StmtKind::Case(_, arms) => push_arms(arms.as_slice(), out),
        StmtKind::While(_, body) => push_labels(body.get(), out),
        StmtKind::Repeat(stmts, _) => push_all(stmts.as_slice(), out),
        StmtKind::For(_, _, _, _, body) => push_labels(body.get(), out),
        StmtKind::With(_, body) => push_labels(body.get(), out),
        StmtKind::Empty => Ok(()),
        StmtKind::Assign(_, _) => Ok(()),
        StmtKind::Call(_, _) => Ok(()),
        StmtKind::Goto(_) => Ok(()),
    }
}

/// Adds the labels of a statement and of all in it, in the order of the text, each with the statement at whose gate
/// control goes on after a `goto` to it.
#[cycle(labels)]
pub fn push_labels(stmt: &Stmt, out: &mut Items<CoreLabel>) -> Result<(), NoMemory>
    ensures { OnOk result (tables.AreLabels out.old out.new (tables.stmt_labels stmt.now)) }
{
    push_own(stmt, out)?;
    push_inner(&stmt.kind, out)
}
