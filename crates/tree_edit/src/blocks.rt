//! A copy of a block with another statement at a path.
ghost use Rattle.std.specs.Prelude.{◌≡◌, ◌+◌, ◌<◌, length, IfOk, MatchOption};
ghost use Rattle.pascal_tree.specs.declared.decl.Block.{out-Block, roll-Block};
ghost use Rattle.tree_edit.specs.Place as spec;

use crate::place::put_boxed;
use dice_base::NoMemory;
use pascal_tree::{
    Block, Decl, Routine, Stmt, copy_block, copy_decls, copy_heading, copy_labels, copy_routines,
    copy_stmt,
};
use sqlite_items::{Boxed, Items, at as item_at};
use std::alloc::Global;

// How far the position is past so many parts. None where it is one of them.
fn past(at: usize, count: usize) -> Option<usize>
    ensures { MatchOption result (at < count) (λ left. at ≡ left + count) }
{
    if at < count {
        return None;
    }
    Some(at - count)
}

fn label_count(labels: &Option<Decl>) -> usize
    ensures { result ≡ spec.label_count labels.now }
{
    match labels {
        None => 0,
        Some(_) => 1,
    }
}

/// How far the position is past the declarations. None where it is one of them.
pub fn past_decls(block: &Block, at: usize) -> Option<usize>
    ensures { MatchOption result (at < spec.declared block.now) (λ left. at ≡ left + spec.declared block.now) }
{
    let at = past(at, label_count(&block.labels))?;
    let at = past(at, block.consts.len())?;
    let at = past(at, block.types.len())?;
    past(at, block.vars.len())
}

// The block with other routines and another body.
fn make_block(
    alloc: Global,
    block: &Block,
    routines: Items<Routine>,
    body: Boxed<Stmt>,
) -> Result<Block, NoMemory>
    ensures { IfOk result (λ b. b ≡ spec.with_routines (spec.with_body block.now body) routines) }
{
    let consts = copy_decls(alloc, block.consts.as_slice())?;
    let types = copy_decls(alloc, block.types.as_slice())?;
    let vars = copy_decls(alloc, block.vars.as_slice())?;
    let labels = copy_labels(alloc, &block.labels)?;
    let body = body.into_inner();
    Ok(Block {
        labels,
        consts,
        types,
        vars,
        routines,
        body,
    })
}

fn put_body(
    alloc: Global,
    block: &Block,
    at: usize,
    path: &[u32],
    new: &Stmt,
) -> Result<Block, NoMemory>
    ensures { let f = spec.put_at path.now new.now in
        let old = out-Block block.now in
        IfOk result (λ b. b ≡ spec.with_body block.now (spec.change_if f at (length old.routines) old.body)) }
{
    let body = put_boxed(alloc, &block.body, at, block.routines.len(), path, new)?;
    let routines = copy_routines(alloc, block.routines.as_slice())?;
    make_block(alloc, block, routines, body)
}

#[cycle(put_block)]
fn put_routine(
    alloc: Global,
    routine: &Routine,
    path: &[u32],
    new: &Stmt,
) -> Result<Routine, NoMemory>
    ensures { IfOk result (λ r. r ≡ spec.change_in_routine (spec.put_in_block path.now new.now) routine.now) }
{
    let name = routine.name;
    let heading = copy_heading(alloc, &routine.heading)?;
    match &routine.block {
        None => Ok(Routine {
            name,
            heading,
            block: None,
        }),
        Some(block) => {
            let block = put_block(alloc, block, path, new)?;
            Ok(Routine {
                name,
                heading,
                block: Some(block),
            })
        }
    }
}

#[cycle(put_block)]
fn put_routines(
    alloc: Global,
    routines: &[Routine],
    at: usize,
    path: &[u32],
    new: &Stmt,
) -> Result<Items<Routine>, NoMemory>
    ensures { let f = spec.change_in_routine (spec.put_in_block path.now new.now) in
        IfOk result (λ all. all ≡ spec.change f at routines.now) }
{
    let Some(routine) = item_at(routines, at) else {
        let all = copy_routines(alloc, routines)?;
        return Ok(all);
    };
    let mut all = copy_routines(alloc, &routines[..at])?;
    all.push(put_routine(alloc, routine, path, new)?)?;
    let rest = copy_routines(alloc, &routines[at + 1..])?;
    all.append(rest)?;
    Ok(all)
}

#[cycle(put_block)]
fn put_after_decls(
    alloc: Global,
    block: &Block,
    at: usize,
    path: &[u32],
    new: &Stmt,
) -> Result<Block, NoMemory>
    ensures { let f = spec.put_at path.now new.now in
        let g = spec.change_in_routine (spec.put_in_block path.now new.now) in
        IfOk result (λ b. b ≡ spec.after_decls f g at block.now) }
{
    if at < block.routines.len() {
        let routines = put_routines(alloc, block.routines.as_slice(), at, path, new)?;
        let body = copy_stmt(alloc, &block.body)?;
        let body = Boxed::new(alloc, body)?;
        return make_block(alloc, block, routines, body);
    }
    put_body(alloc, block, at, path, new)
}

/// A copy of a block, with the new statement in the place at the path from the item whose block it is.
#[cycle(put_block)]
pub fn put_block(alloc: Global, block: &Block, path: &[u32], new: &Stmt) -> Result<Block, NoMemory>
    ensures { IfOk result (λ b. b ≡ spec.put_in_block path.now new.now block.now) }
{
    let [at, path @ ..] = path else {
        return copy_block(alloc, block);
    };
    match past_decls(block, *at as usize) {
        None => copy_block(alloc, block),
        Some(at) => put_after_decls(alloc, block, at, path, new),
    }
}
