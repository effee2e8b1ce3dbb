//! Exact copies of blocks, routines and programs.
//!
//! Lists are copied before large values, so that no step that may fail has a large value to let go of.
ghost use Rattle.std.specs.Prelude.{◌≡◌, IfOk};
ghost use Rattle.pascal_tree.specs.declared.decl.Block.{out-Block};

use crate::decl_copies::{copy_decl_kind, copy_heading, copy_texts};
use crate::stmt_copies::copy_stmt;
use crate::{Block, Decl, Routine, Tree};
use dice_base::NoMemory;
use sqlite_items::Items;
use std::alloc::Global;

/// A copy of a declaration.
pub fn copy_decl(alloc: Global, decl: &Decl) -> Result<Decl, NoMemory>
    ensures { IfOk result (λ x. x ≡ decl.now) }
{
    let name = decl.name;
    let kind = copy_decl_kind(alloc, &decl.kind)?;
    Ok(Decl { name, kind })
}

/// A copy of a list of declarations.
pub fn copy_decls(alloc: Global, decls: &[Decl]) -> Result<Items<Decl>, NoMemory>
    ensures { IfOk result (λ all. all ≡ decls.now) }
{
    let mut all = Items::new(alloc);
    for decl in decls {
        all.push(copy_decl(alloc, decl)?)?;
    }
    Ok(all)
}

/// A copy of the declaration of labels, if there is one.
pub fn copy_labels(alloc: Global, labels: &Option<Decl>) -> Result<Option<Decl>, NoMemory>
    ensures { IfOk result (λ x. x ≡ labels.now) }
{
    match labels {
        None => Ok(None),
        Some(labels) => {
            let labels = copy_decl(alloc, labels)?;
            Ok(Some(labels))
        }
    }
}

// A copy of a block, whose lists of declarations and routines are there already.
fn copy_ends(
    alloc: Global,
    block: &Block,
    consts: Items<Decl>,
    types: Items<Decl>,
    vars: Items<Decl>,
    routines: Items<Routine>,
) -> Result<Block, NoMemory>
    requires consts { consts ≡ (out-Block block.now).consts }
    requires types { types ≡ (out-Block block.now).types }
    requires vars { vars ≡ (out-Block block.now).vars }
    requires routines { routines ≡ (out-Block block.now).routines }
    ensures { IfOk result (λ x. x ≡ block.now) }
{
    let labels = copy_labels(alloc, &block.labels)?;
    let body = copy_stmt(alloc, &block.body)?;
    Ok(Block {
        labels,
        consts,
        types,
        vars,
        routines,
        body,
    })
}

/// A copy of a block.
#[cycle(copy_block)]
pub fn copy_block(alloc: Global, block: &Block) -> Result<Block, NoMemory>
    ensures { IfOk result (λ x. x ≡ block.now) }
{
    let consts = copy_decls(alloc, block.consts.as_slice())?;
    let types = copy_decls(alloc, block.types.as_slice())?;
    let vars = copy_decls(alloc, block.vars.as_slice())?;
    let routines = copy_routines(alloc, block.routines.as_slice())?;
    copy_ends(alloc, block, consts, types, vars, routines)
}

/// A copy of a routine.
#[cycle(copy_block)]
pub fn copy_routine(alloc: Global, routine: &Routine) -> Result<Routine, NoMemory>
    ensures { IfOk result (λ x. x ≡ routine.now) }
{
    let name = routine.name;
    let heading = copy_heading(alloc, &routine.heading)?;
    match &routine.block {
        None => Ok(Routine {
            name,
            heading,
            block: None,
        }),
        Some(block) => {
            let block = copy_block(alloc, block)?;
            Ok(Routine {
                name,
                heading,
                block: Some(block),
            })
        }
    }
}

/// A copy of a list of routines.
#[cycle(copy_block)]
pub fn copy_routines(alloc: Global, routines: &[Routine]) -> Result<Items<Routine>, NoMemory>
    ensures { IfOk result (λ all. all ≡ routines.now) }
{
    let mut all = Items::new(alloc);
    for routine in routines {
        all.push(copy_routine(alloc, routine)?)?;
    }
    Ok(all)
}

/// A copy of a program.
pub fn copy_program(alloc: Global, program: &Tree) -> Result<Tree, NoMemory>
    ensures { IfOk result (λ x. x ≡ program.now) }
{
    let ident = program.ident.copy(alloc)?;
    let files = copy_texts(alloc, program.files.as_slice())?;
    let block = copy_block(alloc, &program.block)?;
    let next = program.next;
    Ok(Tree {
        ident,
        files,
        block,
        next,
    })
}
