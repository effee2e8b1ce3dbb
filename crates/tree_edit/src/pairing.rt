//! Whether each `else` belongs to its own `if` where a statement is put in the place at a path. Nothing is copied.
ghost use Rattle.std.specs.Prelude.{◌≡◌, map, if◌then◌else◌};
ghost use Rattle.std.specs.List.{list_all};
ghost use Rattle.pascal_tree.specs.declared.stmt.StmtKind.{out-StmtKind};
ghost use Rattle.pascal_tree.specs.Openness as spec;
ghost use Rattle.tree_edit.specs.Place as place;

use crate::blocks::past_decls;
use pascal_tree::{Arm, Block, Routine, Stmt, StmtKind};
use sqlite_items::at as item_at;
use tree_checks::{
    are_arms_paired, are_paired, are_routines_paired, is_block_paired, is_paired, is_routine_paired,
};

#[cycle(is_paired_with)]
#[tactic(auto, using(std::proofs::lemmas::Option::slice_get_within))]
fn are_paired_with(stmts: &[Stmt], at: usize, path: &[u32], new: &Stmt) -> bool
    ensures { let edited = place.change (place.put_at path.now new.now) at stmts.now in
        result ≡ spec.are_paired (map spec.stmt_ending edited) }
{
    let Some(stmt) = item_at(stmts, at) else {
        return are_paired(stmts);
    };
    if !is_paired_with(stmt, path, new, false) {
        return false;
    }
    are_paired(&stmts[..at]) && are_paired(&stmts[at + 1..])
}

#[cycle(is_paired_with)]
#[tactic(auto, using(std::proofs::lemmas::Option::slice_get_within))]
fn are_arms_paired_with(arms: &[Arm], at: usize, path: &[u32], new: &Stmt) -> bool
    ensures { let edited = place.change (place.change_in_arm (place.put_at path.now new.now)) at arms.now in
        result ≡ spec.are_paired (map spec.arm_ending edited) }
{
    let Some(arm) = item_at(arms, at) else {
        return are_arms_paired(arms);
    };
    if !is_paired_with(&arm.body, path, new, false) {
        return false;
    }
    are_arms_paired(&arms[..at]) && are_arms_paired(&arms[at + 1..])
}

// The same of a part, which the path enters or not.
#[cycle(is_paired_with)]
fn is_part_paired(stmt: &Stmt, entered: bool, path: &[u32], new: &Stmt, has_else: bool) -> bool
    ensures { let edited = (if entered then place.put_at path.now new.now stmt.now else stmt.now) in
        result ≡ spec.is_paired_before has_else (spec.stmt_ending edited) }
{
    if entered {
        is_paired_with(stmt, path, new, has_else)
    } else {
        is_paired(stmt, has_else)
    }
}

// The same of a statement of this kind, where the path enters part `at`.
#[cycle(is_paired_with)]
#[tactic(auto, unfolding(pascal_tree::specs::Openness::arm_ending, pascal_tree::specs::Openness::stmt_ending, pascal_tree::specs::Openness::kind_ending))]
fn is_kind_paired(kind: &StmtKind, at: usize, path: &[u32], new: &Stmt, has_else: bool) -> bool
    ensures { let edited = place.change_in_kind (place.put_at path.now new.now) at (out-StmtKind kind.now) in
        result ≡ spec.is_paired_before has_else (spec.kind_ending edited) }
{
    match kind {
        StmtKind::Empty | StmtKind::Assign(_, _) | StmtKind::Call(_, _) | StmtKind::Goto(_) => true,
        StmtKind::Compound(stmts) => are_paired_with(stmts.as_slice(), at, path, new),
        StmtKind::If(_, yes, None) => {
            !has_else && is_part_paired(yes.get(), at == 0, path, new, false)
        }
        StmtKind::If(_, yes, Some(no)) => {
            is_part_paired(yes.get(), at == 0, path, new, true)
                && is_part_paired(no.get(), at == 1, path, new, has_else)
        }
        StmtKind::Case(_, arms) => are_arms_paired_with(arms.as_slice(), at, path, new),
        StmtKind::While(_, body) => is_part_paired(body.get(), at == 0, path, new, has_else),
        StmtKind::Repeat(stmts, _) => are_paired_with(stmts.as_slice(), at, path, new),
        StmtKind::For(_, _, _, _, body) => {
            is_part_paired(body.get(), at == 0, path, new, has_else)
        }
        StmtKind::With(_, body) => is_part_paired(body.get(), at == 0, path, new, has_else),
    }
}

// Whether no first branch before an `else` is open in the edited statement, nor that statement where an `else` follows.
#[cycle(is_paired_with)]
#[tactic(auto, unfolding(pascal_tree::specs::Openness::arm_ending, pascal_tree::specs::Openness::stmt_ending, pascal_tree::specs::Openness::kind_ending))]
fn is_paired_with(stmt: &Stmt, path: &[u32], new: &Stmt, has_else: bool) -> bool
    ensures { let edited = place.put_at path.now new.now stmt.now in
        result ≡ spec.is_paired_before has_else (spec.stmt_ending edited) }
{
    let [at, path @ ..] = path else {
        return is_paired(new, has_else);
    };
    is_kind_paired(&stmt.kind, *at as usize, path, new, has_else)
}

#[cycle(is_block_paired_with)]
#[tactic(auto, unfolding(pascal_tree::specs::Openness::routine_is_paired, pascal_tree::specs::Openness::block_is_paired))]
fn is_routine_paired_with(routine: &Routine, path: &[u32], new: &Stmt) -> bool
    ensures { let edited = place.change_in_routine (place.put_in_block path.now new.now) routine.now in
        result ≡ spec.routine_is_paired edited }
{
    match &routine.block {
        None => true,
        Some(block) => is_block_paired_with(block, path, new),
    }
}

#[cycle(is_block_paired_with)]
#[tactic(auto, using(std::proofs::lemmas::Option::slice_get_within))]
fn are_routines_paired_with(routines: &[Routine], at: usize, path: &[u32], new: &Stmt) -> bool
    ensures { let edited = place.change (place.change_in_routine (place.put_in_block path.now new.now)) at routines.now in
        result ≡ list_all (λ paired. paired) (map spec.routine_is_paired edited) }
{
    let Some(routine) = item_at(routines, at) else {
        return are_routines_paired(routines);
    };
    if !is_routine_paired_with(routine, path, new) {
        return false;
    }
    are_routines_paired(&routines[..at]) && are_routines_paired(&routines[at + 1..])
}

// The same of a block, where the path enters the part that comes at place `at` after the declarations.
#[cycle(is_block_paired_with)]
#[tactic(auto, unfolding(pascal_tree::specs::Openness::routine_is_paired, pascal_tree::specs::Openness::block_is_paired))]
fn is_paired_after_decls(block: &Block, at: usize, path: &[u32], new: &Stmt) -> bool
    ensures { let f = place.put_at path.now new.now in
        let g = place.change_in_routine (place.put_in_block path.now new.now) in
        result ≡ spec.block_is_paired (place.after_decls f g at block.now) }
{
    let count = block.routines.len();
    if at < count {
        return are_routines_paired_with(block.routines.as_slice(), at, path, new)
            && is_paired(&block.body, false);
    }
    are_routines_paired(block.routines.as_slice())
        && is_part_paired(&block.body, at == count, path, new, false)
}

/// Whether no first branch before an `else` is open in the block with the new statement in the place at the path from
/// the item whose block it is.
#[cycle(is_block_paired_with)]
pub fn is_block_paired_with(block: &Block, path: &[u32], new: &Stmt) -> bool
    ensures { result ≡ spec.block_is_paired (place.put_in_block path.now new.now block.now) }
{
    let [at, path @ ..] = path else {
        return is_block_paired(block);
    };
    match past_decls(block, *at as usize) {
        None => is_block_paired(block),
        Some(at) => is_paired_after_decls(block, at, path, new),
    }
}
