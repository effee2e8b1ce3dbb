//! The declarations of a block, part by part (ISO 7185:1990, 6.2.1), and the layout that they give its owner.
ghost use Rattle.std.specs.Prelude.{◌≡◌, map, IfOk};
ghost use Rattle.pascal_tree.specs.declared.decl.Block.{out-Block};
ghost use Rattle.body_labels.specs.Labels.{placed_labels};
ghost use Rattle.check_decl.specs.Answers.{Answers};
ghost use Rattle.check_decl.specs.BlockRules as spec;
ghost use Rattle.check_decl.specs.Blocks as folds;

use crate::idents::{type_constants, type_names};
use crate::items::decl_items;
use crate::labels::label_part;
use crate::place::{At, Known, Layout, Owner};
use check_rules::{CheckEnd, Region};
use dice_base::{Name, NoMemory, Text};
use pascal_tree::{Block, Decl};
use sqlite_items::Items;
use std::alloc::Global;

fn region_with_types(region: Region, types: Items<(Text, Name)>, constants: Items<Text>) -> Region
    ensures { result ≡ spec.region_with_types region types constants }
{
    Region {
        declared: region.declared,
        later: region.later,
        types,
        constants,
    }
}

fn with_type_part(types: Items<(Text, Name)>, constants: Items<Text>, here: At) -> At
    ensures { result ≡ spec.with_type_part types constants here }
{
    At {
        known: here.known,
        block: region_with_types(here.block, types, constants),
        rows: here.rows,
        words: here.words,
    }
}

fn type_part(
    alloc: Global,
    owner: &Owner,
    outer: &[Region],
    decls: &[Decl],
    here: At,
) -> Result<At, CheckEnd>
    ensures { Answers result (spec.type_part owner.now outer.now (map folds.decl_judge decls.now) here) }
{
    let Ok(types) = type_names(alloc, decls) else {
        return Err(CheckEnd::NoMemory);
    };
    let Ok(constants) = type_constants(alloc, decls) else {
        return Err(CheckEnd::NoMemory);
    };
    let here = with_type_part(types, constants, here);
    let here = decl_items(alloc, owner, outer, decls, here)?;
    Ok(with_type_part(Items::new(alloc), Items::new(alloc), here))
}

fn known_with(known: Known, layout: Layout) -> Result<Known, NoMemory>
    ensures { IfOk result (λ k. k ≡ spec.known_with known layout) }
{
    let Known {
        table,
        domains,
        changed,
        mut layouts,
        places,
    } = known;
    layouts.push(layout)?;
    Ok(Known {
        table,
        domains,
        changed,
        layouts,
        places,
    })
}

fn with_layout(alloc: Global, owner: &Owner, here: At) -> Result<At, NoMemory>
    ensures { IfOk result (λ at. at ≡ spec.with_layout owner.now here) }
{
    let At {
        known,
        block,
        rows,
        words,
    } = here;
    let layout = Layout {
        owner: owner.name,
        level: owner.level,
        rows,
        words,
    };
    let known = known_with(known, layout)?;
    Ok(At {
        known,
        block,
        rows: Items::new(alloc),
        words,
    })
}

/// The declarations of labels, constants, types and variables of a block: the place after them, where the layout of the
/// block's owner stands, or the first fault.
pub fn declarations(
    alloc: Global,
    block: &Block,
    owner: &Owner,
    outer: &[Region],
    here: At,
) -> Result<At, CheckEnd>
    ensures { Answers result (spec.declarations (folds.labels_in (out-Block block.now).labels) (placed_labels (out-Block block.now).body) (map folds.decl_judge (out-Block block.now).consts) (map folds.decl_judge (out-Block block.now).types) (map folds.decl_judge (out-Block block.now).vars) owner.now outer.now here) }
{
    let here = label_part(alloc, block.labels.as_ref(), &block.body, here)?;
    let here = decl_items(alloc, owner, outer, block.consts.as_slice(), here)?;
    let here = type_part(alloc, owner, outer, block.types.as_slice(), here)?;
    let here = decl_items(alloc, owner, outer, block.vars.as_slice(), here)?;
    let Ok(here) = with_layout(alloc, owner, here) else {
        return Err(CheckEnd::NoMemory);
    };
    Ok(here)
}
