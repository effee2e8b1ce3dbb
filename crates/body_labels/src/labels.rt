//! Labels (ISO 7185:1990, 6.2.1): those that stand in a body, and label declaration parts.
ghost use Rattle.std.specs.Prelude.{◌≡◌, ◌≤◌, ◌++◌, length, map, OnOk};
ghost use Rattle.body_labels.specs.Labels as spec;

use check_rules::{TWICE, WRONG_LABEL, kind_unless, least};
use dice_base::NoMemory;
use pascal_tree::{Arm, Stmt, StmtKind};
use sqlite_items::Items;

const MAX_LABEL: u16 = 9_999;

#[cycle(push_labels)]
fn push_all(stmts: &[Stmt], out: &mut Items<u16>) -> Result<(), NoMemory>
    ensures { OnOk result (out.new ≡ out.old ++ spec.all_labels (map spec.placed_labels stmts.now)) }
{
    for stmt in stmts {
        push_labels(stmt, out)?;
    }
    Ok(())
}

#[cycle(push_labels)]
#[tactic(auto, unfolding(crate::specs::Labels::placed_labels, crate::specs::Labels::arm_labels))]
fn push_arm(arm: &Arm, out: &mut Items<u16>) -> Result<(), NoMemory>
    ensures { OnOk result (out.new ≡ out.old ++ spec.arm_labels arm.now) }
{
    push_labels(&arm.body, out)
}

#[cycle(push_labels)]
fn push_arms(arms: &[Arm], out: &mut Items<u16>) -> Result<(), NoMemory>
    ensures { OnOk result (out.new ≡ out.old ++ spec.all_labels (map spec.arm_labels arms.now)) }
{
    for arm in arms {
        push_arm(arm, out)?;
    }
    Ok(())
}

#[cycle(push_labels)]
#[tactic(auto, unfolding(crate::specs::Labels::placed_labels, crate::specs::Labels::kind_labels, crate::specs::Labels::arm_labels))]
fn push_kind(kind: &StmtKind, out: &mut Items<u16>) -> Result<(), NoMemory>
    ensures { OnOk result (out.new ≡ out.old ++ spec.kind_labels kind.now) }
{
    match kind {
        StmtKind::Compound(stmts) => push_all(stmts.as_slice(), out),
        StmtKind::If(_, first, None) => push_labels(first.get(), out),
        StmtKind::If(_, first, Some(second)) => {
            push_labels(first.get(), out)?;
            push_labels(second.get(), out)
        }
        StmtKind::Case(_, arms) => push_arms(arms.as_slice(), out),
        StmtKind::While(_, body) => push_labels(body.get(), out),
        StmtKind::Repeat(stmts, _) => push_all(stmts.as_slice(), out),
        StmtKind::For(_, _, _, _, body) => push_labels(body.get(), out),
        StmtKind::With(_, body) => push_labels(body.get(), out),
        _ => Ok(()),
    }
}

/// Adds the labels that stand before a statement and those in it, in the order of the text.
#[cycle(push_labels)]
#[tactic(auto, unfolding(crate::specs::Labels::placed_labels, crate::specs::Labels::kind_labels))]
pub fn push_labels(stmt: &Stmt, out: &mut Items<u16>) -> Result<(), NoMemory>
    ensures { OnOk result (out.new ≡ out.old ++ spec.placed_labels stmt.now) }
{
    if let Some(label) = stmt.label {
        out.push(label)?;
    }
    push_kind(&stmt.kind, out)
}

pub fn has_number(labels: &[u16], label: u16) -> bool
    ensures { result ≡ spec.has_number labels.now label }
{
    for other in labels {
        if *other == label {
            return true;
        }
    }
    false
}

fn all_differ(labels: &[u16]) -> bool
    ensures { result ≡ spec.all_differ labels.now }
{
    for at in 0..labels.len() {
        if has_number(&labels[at + 1..], labels[at]) {
            return false;
        }
    }
    true
}

fn number_count(labels: &[u16], label: u16) -> usize
    ensures value { result ≡ spec.number_count labels.now label }
{
    let mut count: usize = 0;
    for other in labels {
        if *other == label {
            count += 1;
        }
    }
    count
}

fn are_placed_once(labels: &[u16], placed: &[u16]) -> bool
    ensures { result ≡ spec.are_placed_once labels.now placed.now }
{
    for label in labels {
        if *label > MAX_LABEL || number_count(placed, *label) != 1 {
            return false;
        }
    }
    true
}

/// The kind of a label declaration part with these labels, where those stand in the body.
pub fn label_part_kind(labels: &[u16], placed: &[u16]) -> u8
    ensures { result ≡ spec.label_part_kind labels.now placed.now }
{
    let differ = kind_unless(all_differ(labels), TWICE);
    let placed = kind_unless(are_placed_once(labels, placed), WRONG_LABEL);
    least(differ, placed)
}
