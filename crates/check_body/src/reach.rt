//! Labels (ISO 7185:1990, 6.8.1 and 6.8.2.4): those to which a `goto` may lead.
ghost use Rattle.std.specs.Prelude.{◌≡◌, ◌++◌, map, option_to_list, IfOk};
ghost use Rattle.check_body.specs.StatementRules as spec;
ghost use Rattle.check_body.specs.Statements as folds;
ghost use Rattle.body_labels.specs.Labels.{Numbers};
ghost use Rattle.check_body.specs.Steps as steps;

use body_labels::has_number;
use check_rules::{CLEAN, WRONG_LABEL, kind_unless};
use dice_base::NoMemory;
use pascal_tree::Stmt;
use sqlite_items::Items;
use std::alloc::Global;

const MAX_LABEL: u16 = 9_999;

fn known_label(labels: &[u16], label: u16) -> u8
    ensures { result ≡ steps.known_label labels.now label }
{
    let known = label <= MAX_LABEL && has_number(labels, label);
    kind_unless(known, WRONG_LABEL)
}

/// The kind of the label that stands before a statement, where the block declares these.
pub fn label_kind(labels: &[u16], label: Option<u16>) -> u8
    ensures { result ≡ spec.label_kind labels.now label }
{
    match label {
        None => CLEAN,
        Some(label) => known_label(labels, label),
    }
}

/// The kind of a `goto` to a label, where it may lead to these.
pub fn goto_kind(reach: &[u16], label: u16) -> u8
    ensures { result ≡ steps.known_label reach.now label }
{
    known_label(reach, label)
}

fn copy_labels(mut out: Items<u16>, labels: &[u16]) -> Result<Items<u16>, NoMemory>
    ensures { IfOk result (λ r. r ≡ out ++ labels.now) }
{
    for label in labels {
        out.push(*label)?;
    }
    Ok(out)
}

/// The labels to which a `goto` in a statement with this label may lead, where one beside it may lead to these.
pub fn reach_within(
    alloc: Global,
    label: Option<u16>,
    reach: &[u16],
) -> Result<Items<u16>, NoMemory>
    ensures { IfOk result (λ r. r ≡ option_to_list label ++ reach.now) }
{
    let mut inside = Items::new(alloc);
    if let Some(label) = label {
        inside.push(label)?;
    }
    copy_labels(inside, reach)
}

fn labels_of(alloc: Global, stmts: &[Stmt]) -> Result<Items<u16>, NoMemory>
    ensures { IfOk result (λ r. r ≡ steps.own_labels stmts.now) }
{
    let mut labels = Items::new(alloc);
    for stmt in stmts {
        if let Some(label) = stmt.label {
            labels.push(label)?;
        }
    }
    Ok(labels)
}

/// The labels to which a `goto` in a sequence of statements may lead, where one beside it may lead to these.
#[tactic(auto, using(crate::proofs::Layers::labels_are))]
pub fn reach_in(alloc: Global, stmts: &[Stmt], reach: &[u16]) -> Result<Items<u16>, NoMemory>
    ensures { (labels : Numbers) → IfOk result (λ r. r ≡ spec.labels_of (map (folds.judge_of labels) stmts.now) ++ reach.now) }
{
    let labels = labels_of(alloc, stmts)?;
    copy_labels(labels, reach)
}
