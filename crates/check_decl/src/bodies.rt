//! What comes of the bodies of blocks.
ghost use Rattle.std.specs.Prelude.{◌≡◌, OnOk};
ghost use Rattle.std.specs.Option.{option_copied};
ghost use Rattle.check_decl.specs.Answers.{Answers};
ghost use Rattle.check_decl.specs.Blocks.{BodyRule, bodyless, labels_in};

use crate::place::{At, Owner};
use check_rules::{CheckEnd, Region};
use pascal_tree::{Decl, Stmt};
use sqlite_items::Items;
use std::alloc::Global;

/// What judges the bodies of blocks.
pub trait JudgesBodies {
    /// The rule by which it does.
    ghost rule: { Self → BodyRule };

    /// A body, behind all declarations of its block, which declares these labels. The regions outside the block are
    /// lent, and given back as they were.
    fn judge(
        &self,
        alloc: Global,
        labels: Option<&Decl>,
        body: &Stmt,
        owner: &Owner,
        outer: &mut Items<Region>,
        here: At,
    ) -> Result<At, CheckEnd>
        ensures value { Answers result (rule self.now (labels_in (option_copied labels.entry)) body.now owner.now outer.old here) }
        ensures kept { OnOk result (outer.new ≡ outer.old) };
}

/// Leaves bodies out.
#[derive(Clone, Copy)]
pub struct WithoutBodies;

impl JudgesBodies for WithoutBodies {
    ghost rule = { λ s. bodyless };

    fn judge(
        &self,
        _alloc: Global,
        _labels: Option<&Decl>,
        _body: &Stmt,
        _owner: &Owner,
        _outer: &mut Items<Region>,
        here: At,
    ) -> Result<At, CheckEnd> {
        Ok(here)
    }
}
