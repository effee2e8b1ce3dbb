//! Headings of routines in the order of the text (ISO 7185:1990, 6.6.1 and 6.6.2): each declares a routine, or stands
//! before the block of one that was `forward`.
ghost use Rattle.std.specs.Prelude.{◌≡◌, map, IfOk};
ghost use Rattle.check_decl.specs.Answers.{AnswersHead};
ghost use Rattle.check_decl.specs.BlockRules as spec;
ghost use Rattle.check_decl.specs.Blocks as folds;
ghost use Rattle.check_rules.specs.Regions as regions;

use crate::items::item;
use crate::place::At;
use crate::routines::{Naming, block_for, copy_routine, forward_in};
use check_rules::{
    CLEAN, CheckEnd, Entity, Region, RoutineEntity, WRONG_FORWARD, WRONG_TYPE, declare, entity_in,
    kind_unless, least,
};
use check_types::{JudgedHeading, heading_of, is_bare_heading, lacks_result};
use dice_base::{Name, NoMemory, Text};
use pascal_tree::{Heading, Routine};
use std::alloc::Global;

/// The place after a heading, with the routine whose heading it is.
#[derive(Drop)]
pub struct Headed {
    pub here: At,
    pub routine: RoutineEntity,
}

/// The name under which a heading declares its routine: its own where it has a block, else that of the block to come.
pub fn naming_of(name: Name, heading: &Heading, block: bool, later: &[Routine]) -> Naming
    ensures { result ≡ spec.naming_of name heading.now block (map (folds.routine_judge folds.bodyless) later.now) }
{
    if block {
        return Naming {
            name,
            forward: false,
            kind: CLEAN,
        };
    }
    match block_for(heading, later) {
        None => Naming {
            name,
            forward: true,
            kind: WRONG_FORWARD,
        },
        Some(name) => Naming {
            name,
            forward: true,
            kind: CLEAN,
        },
    }
}

fn new_kind(heading: &Heading, judged: &JudgedHeading, kind: u8) -> u8
    ensures { result ≡ spec.new_kind heading.now judged.now kind }
{
    let complete = kind_unless(!lacks_result(heading), WRONG_TYPE);
    least(judged.kind, least(kind, complete))
}

fn bare_kind(heading: &Heading, judged: &JudgedHeading) -> u8
    ensures { result ≡ spec.bare_kind heading.now judged.now }
{
    least(
        judged.kind,
        kind_unless(is_bare_heading(heading), WRONG_FORWARD),
    )
}

fn routine_named(
    alloc: Global,
    name: Name,
    ident: &Text,
    routine: RoutineEntity,
    here: At,
    kind: u8,
) -> Result<Headed, CheckEnd>
    ensures { AnswersHead result (spec.routine_named name ident.now routine here kind) }
{
    let At {
        known,
        mut block,
        rows,
        words,
    } = here;
    let Ok(copied) = copy_routine(alloc, &routine) else {
        return Err(CheckEnd::NoMemory);
    };
    let Ok(twice) = declare(alloc, &mut block, ident, Entity::RoutineOf(copied)) else {
        return Err(CheckEnd::NoMemory);
    };
    let here = At {
        known,
        block,
        rows,
        words,
    };
    let here = item(name, least(kind, twice), here)?;
    Ok(Headed { here, routine })
}

fn new_routine(
    alloc: Global,
    name: Name,
    heading: &Heading,
    level: u32,
    judged: JudgedHeading,
    naming: Naming,
    here: At,
) -> Result<Headed, CheckEnd>
    ensures { AnswersHead result (spec.new_routine name heading.now level judged naming here) }
{
    let Some(own_level) = level.checked_add(1) else {
        return Err(CheckEnd::NoMemory);
    };
    let kind = new_kind(heading, &judged, naming.kind);
    let routine = RoutineEntity {
        name: naming.name,
        function: heading.function,
        level: own_level,
        parameters: judged.parameters,
        result: judged.result,
        forward: naming.forward,
    };
    routine_named(alloc, name, &heading.ident, routine, here, kind)
}

fn forward_copy(
    alloc: Global,
    name: Name,
    block: bool,
    region: &Region,
    ident: &Text,
) -> Result<Option<RoutineEntity>, NoMemory>
    ensures { IfOk result (λ f. f ≡ spec.forward_in name block (regions.entity_in region.now.declared ident.now)) }
{
    let entity = entity_in(region.declared.as_slice(), ident.bytes());
    match forward_in(name, block, entity) {
        None => Ok(None),
        Some(routine) => Ok(Some(copy_routine(alloc, routine)?)),
    }
}

/// The heading of the item with this name, in a block of this level: the place after it, or its fault.
pub fn routine_head(
    alloc: Global,
    name: Name,
    heading: &Heading,
    block: bool,
    naming: Naming,
    level: u32,
    outer: &[Region],
    here: At,
) -> Result<Headed, CheckEnd>
    ensures { AnswersHead result (spec.routine_head name heading.now block naming level outer.now here) }
{
    let table = here.known.table.as_slice();
    let Ok(judged) = heading_of(alloc, table, outer, &here.block, heading) else {
        return Err(CheckEnd::NoMemory);
    };
    let Ok(forward) = forward_copy(alloc, name, block, &here.block, &heading.ident) else {
        return Err(CheckEnd::NoMemory);
    };
    match forward {
        None => new_routine(alloc, name, heading, level, judged, naming, here),
        Some(routine) => {
            let here = item(name, bare_kind(heading, &judged), here)?;
            Ok(Headed { here, routine })
        }
    }
}
