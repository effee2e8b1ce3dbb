//! When an edit is refused.
ghost use Rattle.std.specs.Prelude.{◌≡◌, ◌+◌, nat_lt, length, slice_get};
ghost use Rattle.pascal_tree.specs.Names.{names_within};
ghost use Rattle.pascal_tree.specs.declared.decl.Block.{out-Block};
ghost use Rattle.pascal_tree.specs.Formed.{is_body};
ghost use Rattle.tree_edit.specs.Edited as spec;
ghost use Rattle.tree_edit.specs.Place.{leads_to_body};

use crate::blocks::past_decls;
use pascal_tree::{Block, Stmt, StmtKind};
use tree_names::new_names;

const LAST_LEVEL: usize = 64;

const LAST_NAME: u32 = 1_000_000;

/// Whether so many levels are too many for a statement in the place at the path.
pub fn is_too_deep(path: &[u32], levels: u32) -> bool
    ensures { result ≡ nat_lt 64 (length path.now + levels) }
{
    let above = path.len();
    above > LAST_LEVEL || levels as usize > LAST_LEVEL - above
}

/// Whether there are too few names for what is inside a statement.
pub fn are_spent(next: u32, stmt: &Stmt) -> bool
    ensures { result ≡ spec.are_spent next (length (names_within stmt.now)) }
{
    let count = new_names(stmt);
    count > 0 && (next > LAST_NAME || count > LAST_NAME + 1 - next)
}

fn is_body(stmt: &Stmt) -> bool
    ensures { result ≡ is_body stmt.now }
{
    match &stmt.kind {
        StmtKind::Compound(_) => stmt.label.is_none(),
        _ => false,
    }
}

// Whether the path leads to the body of a block.
fn leads_to_body(block: &Block, path: &[u32]) -> bool
    ensures { result ≡ leads_to_body path.now block.now }
{
    let [at, path @ ..] = path else {
        return false;
    };
    let Some(at) = past_decls(block, *at as usize) else {
        return false;
    };
    if at >= block.routines.len() {
        return path.is_empty();
    }
    let Some(routine) = block.routines.get(at) else {
        return false;
    };
    match &routine.block {
        None => false,
        Some(block) => leads_to_body(block, path),
    }
}

/// Whether the statement can stand in the place at the path from the item whose block it is.
pub fn can_stand(block: &Block, path: &[u32], stmt: &Stmt) -> bool
    ensures { result ≡ spec.can_stand path.now stmt.now block.now }
{
    is_body(stmt) || !leads_to_body(block, path)
}
