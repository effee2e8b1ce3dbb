//! The label declaration part of a block (ISO 7185:1990, 6.2.1).
ghost use Rattle.std.specs.Prelude.{◌≡◌};
ghost use Rattle.std.specs.Option.{option_copied};
ghost use Rattle.body_labels.specs.Labels as spec;
ghost use Rattle.check_decl.specs.Answers.{Answers};
ghost use Rattle.check_decl.specs.BlockRules as rules;
ghost use Rattle.check_decl.specs.Blocks as folds;

use crate::items::item;
use crate::place::At;
use body_labels::{label_part_kind, push_labels};
use check_rules::CheckEnd;
use pascal_tree::{Decl, DeclKind, Stmt};
use sqlite_items::Items;
use std::alloc::Global;

fn numbers_in(decl: &Decl) -> &[u16]
    ensures { result.now ≡ folds.numbers_in decl.now.kind }
{
    match &decl.kind {
        DeclKind::LabelDecl(labels) => labels.as_slice(),
        _ => &[],
    }
}

/// The label declaration part of a block with this body.
pub fn label_part(
    alloc: Global,
    labels: Option<&Decl>,
    body: &Stmt,
    here: At,
) -> Result<At, CheckEnd>
    ensures { Answers result (rules.label_part (folds.labels_in (option_copied labels.entry)) (spec.placed_labels body.now) here) }
{
    match labels {
        None => Ok(here),
        Some(decl) => {
            let mut placed = Items::new(alloc);
            let Ok(()) = push_labels(body, &mut placed) else {
                return Err(CheckEnd::NoMemory);
            };
            let kind = label_part_kind(numbers_in(decl), placed.as_slice());
            item(decl.name, kind, here)
        }
    }
}
