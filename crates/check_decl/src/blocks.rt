//! Blocks and their routines, in the order of the text (ISO 7185:1990, 6.2.1 and 6.6). What comes of a body is a parameter.
ghost use Rattle.std.specs.Prelude.{◌≡◌, map, IfOk, OnOk};
ghost use Rattle.pascal_tree.specs.declared.decl.Block.{out-Block};
ghost use Rattle.check_decl.specs.Answers.{Answers};
ghost use Rattle.check_decl.specs.BlockRules as spec;
ghost use Rattle.check_decl.specs.Blocks as folds;

use crate::bodies::JudgesBodies;
use crate::heads::{Headed, naming_of, routine_head};
use crate::idents::block_idents;
use crate::parts::declarations;
use crate::place::{At, BodyPlace, Known, Owner, Row};
use crate::routines::{Naming, owner_of, place_inside};
use check_rules::{CheckEnd, Region};
use dice_base::{NoMemory, Text};
use pascal_tree::{Block, Routine};
use sqlite_items::Items;
use std::alloc::Global;

fn with_place(known: Known, owner: Owner, region: Region) -> Result<Known, NoMemory>
    ensures { IfOk result (λ k. k ≡ spec.with_place known owner region) }
{
    let Known {
        table,
        domains,
        changed,
        layouts,
        mut places,
    } = known;
    places.push(BodyPlace { owner, region })?;
    Ok(Known {
        table,
        domains,
        changed,
        layouts,
        places,
    })
}

// The begin of the block of a routine, and what is left outside of it meanwhile.
#[derive(Drop)]
struct Entered {
    owner: Owner,
    begin: At,
    block: Region,
    rows: Items<Row>,
    words: u32,
}

fn enter(
    alloc: Global,
    ident: &Text,
    block: &Block,
    owner: &Owner,
    headed: Headed,
) -> Result<Entered, NoMemory>
    ensures owner { IfOk result (λ e. e.owner ≡ spec.owner_of headed.routine owner.now) }
    ensures begin { IfOk result (λ e. e.begin ≡ spec.place_inside ident.now headed.routine (folds.block_judge folds.bodyless block.now).idents headed.here.known) }
    ensures block { IfOk result (λ e. e.block ≡ headed.here.block) }
    ensures rows { IfOk result (λ e. e.rows ≡ headed.here.rows) }
    ensures words { IfOk result (λ e. e.words ≡ headed.here.words) }
{
    let Headed { here, routine } = headed;
    let idents = block_idents(alloc, block)?;
    let owner = owner_of(alloc, &routine, owner)?;
    let At {
        known,
        block,
        rows,
        words,
    } = here;
    let begin = place_inside(alloc, ident, &routine, idents, known)?;
    Ok(Entered {
        owner,
        begin,
        block,
        rows,
        words,
    })
}

// Behind the block of a routine: what is known now, in the place that was left.
fn leave(
    owner: Owner,
    after: At,
    block: Region,
    rows: Items<Row>,
    words: u32,
) -> Result<At, CheckEnd>
    ensures { Answers result (spec.place_after owner after block rows words) }
{
    let Ok(known) = with_place(after.known, owner, after.block) else {
        return Err(CheckEnd::NoMemory);
    };
    Ok(At {
        known,
        block,
        rows,
        words,
    })
}

#[cycle(blocks)]
#[tactic(auto, using(std::proofs::lemmas::List::append_cancel_right), unfolding(crate::specs::Blocks::block_judge, crate::specs::Blocks::routine_judge))]
fn routine_item<B: JudgesBodies>(
    alloc: Global,
    bodies: &B,
    routine: &Routine,
    naming: Naming,
    owner: &Owner,
    outer: &mut Items<Region>,
    here: At,
) -> Result<At, CheckEnd>
    ensures value { Answers result (spec.routine_item (folds.routine_judge (B.rule bodies.now) routine.now) naming owner.now outer.old here) }
    ensures kept { OnOk result (outer.new ≡ outer.old) }
{
    let headed = routine_head(
        alloc,
        routine.name,
        &routine.heading,
        routine.block.is_some(),
        naming,
        owner.level,
        outer.as_slice(),
        here,
    )?;
    match &routine.block {
        None => Ok(headed.here),
        Some(block) => {
            let Ok(inside) = enter(alloc, &routine.heading.ident, block, owner, headed) else {
                return Err(CheckEnd::NoMemory);
            };
            let Entered {
                owner: own,
                begin,
                block: region,
                rows,
                words,
            } = inside;
            let Ok(()) = outer.push(region) else {
                return Err(CheckEnd::NoMemory);
            };
            match block_walk(alloc, bodies, block, &own, outer, begin) {
                Err(end) => Err(end),
                Ok(after) => {
                    let Some(region) = outer.pop() else {
                        return Err(CheckEnd::NoMemory);
                    };
                    leave(own, after, region, rows, words)
                }
            }
        }
    }
}

#[cycle(blocks)]
fn routine_items<B: JudgesBodies>(
    alloc: Global,
    bodies: &B,
    routines: &[Routine],
    owner: &Owner,
    outer: &mut Items<Region>,
    here: At,
) -> Result<At, CheckEnd>
    ensures value { Answers result (spec.routine_items owner.now outer.old (map (folds.routine_judge (B.rule bodies.now)) routines.now) here) }
    ensures kept { OnOk result (outer.new ≡ outer.old) }
{
    let mut so_far = here;
    for (index, routine) in routines.iter().enumerate() {
        let block = routine.block.is_some();
        let later = &routines[index + 1..];
        let naming = naming_of(routine.name, &routine.heading, block, later);
        match routine_item(alloc, bodies, routine, naming, owner, outer, so_far) {
            Err(end) => return Err(end),
            Ok(after) => so_far = after,
        }
    }
    Ok(so_far)
}

// Behind the declarations of a block: its routines and its body.
#[cycle(blocks)]
fn rest_walk<B: JudgesBodies>(
    alloc: Global,
    bodies: &B,
    block: &Block,
    owner: &Owner,
    outer: &mut Items<Region>,
    here: At,
) -> Result<At, CheckEnd>
    ensures value { Answers result (folds.rest_walk (B.rule bodies.now) (out-Block block.now) owner.now outer.old here) }
    ensures kept { OnOk result (outer.new ≡ outer.old) }
{
    match routine_items(alloc, bodies, block.routines.as_slice(), owner, outer, here) {
        Err(end) => Err(end),
        Ok(here) => bodies.judge(
            alloc,
            block.labels.as_ref(),
            &block.body,
            owner,
            outer,
            here,
        ),
    }
}

/// A block: the place at its end, or the first fault in it. The regions outside are lent, and given back as they were.
#[cycle(blocks)]
pub fn block_walk<B: JudgesBodies>(
    alloc: Global,
    bodies: &B,
    block: &Block,
    owner: &Owner,
    outer: &mut Items<Region>,
    here: At,
) -> Result<At, CheckEnd>
    ensures value { Answers result ((folds.block_judge (B.rule bodies.now) block.now).walk owner.now outer.old here) }
    ensures kept { OnOk result (outer.new ≡ outer.old) }
{
    match declarations(alloc, block, owner, outer.as_slice(), here) {
        Err(end) => Err(end),
        Ok(here) => rest_walk(alloc, bodies, block, owner, outer, here),
    }
}
