//! The routines and the blocks of a program, in the order of the text (ISO 7185:1990, 6.2.1 and 6.6): those of a block
//! stand behind the block's own, and before those of its body.
ghost use Rattle.std.specs.Prelude.{◌≡◌, ◌∷◌, [], option_copied, IfOk};
ghost use Rattle.core_tree.specs.Shapes.{trees_of};
ghost use Rattle.pascal_tree.specs.declared.decl.Block.{out-Block};
ghost use Rattle.pascal_tree.specs.declared.decl.Routine.{out-Routine};
ghost use Rattle.check_decl.specs.declared.place.Owner.{Owner};
ghost use Rattle.check_rules.specs.Typing.{Text as Ident};
ghost use Rattle.resolve_types.specs.Programs.{context_of};
ghost use Rattle.check_program.specs.Resolution as spec;

use crate::lists::{Lists, Source};
use crate::own::{body_place, push_own};
use check_rules::{CheckEnd, Entity, RoutineEntity, entity_in};
use dice_base::{Name, Text};
use pascal_tree::{Block, Routine, Stmt};
use resolve_expr::Context;
use resolve_statements::push_statement;
use resolve_types::{entered, left, region_of};
use std::alloc::Global;

// The blocks of the body of a routine or of the program. What stands around it is given back as it was.
fn push_body(
    alloc: Global,
    body: &Stmt,
    routine: &RoutineEntity,
    context: Context,
    out: &mut Lists,
) -> Result<Context, CheckEnd>
    ensures rows { spec.AddsBody result out.old out.new routine.now body.now context }
    ensures kept { IfOk result (λ c. c ≡ context) }
{
    let mut context = context;
    let place = body_place(routine);
    match push_statement(alloc, &mut context, body, place, &mut out.blocks) {
        Err(end) => Err(end),
        Ok(()) => Ok(context),
    }
}

// The routine that this item of a block declares, where the item has its block.
fn routine_in<'a>(source: &'a Source, owner: Name, routine: &Routine) -> Option<&'a RoutineEntity>
    ensures { option_copied result ≡ spec.routine_of source.now.end owner (out-Routine routine.now) }
{
    let region = region_of(&source.end, owner);
    match entity_in(region.declared.as_slice(), routine.heading.ident.bytes()) {
        Some(Entity::RoutineOf(entity)) => {
            if entity.name.0 == routine.name.0 {
                Some(entity)
            } else {
                None
            }
        }
        _ => None,
    }
}

#[cycle(blocks)]
fn push_routine(
    alloc: Global,
    source: &Source,
    routine: &Routine,
    context: Context,
    out: &mut Lists,
) -> Result<Context, CheckEnd>
    requires { trees_of source.now.shapes.entries ≡ spec.trees_in source.now.end }
    ensures rows { (owner : Owner) → context ≡ context_of source.now.end owner
        → spec.Adds result source.now.end out.old out.new (spec.inner_listed source.now.end owner (routine.now ∷ [])) (spec.inner_rows source.now.end owner (routine.now ∷ [])) }
    ensures kept { IfOk result (λ c. c ≡ context) }
{
    let owner = context.env.owner;
    let level = context.level;
    match &routine.block {
        None => Ok(context),
        Some(block) => match routine_in(source, owner, routine) {
            None => Ok(context),
            Some(entity) => {
                let Ok(inside) = entered(alloc, &source.end, entity, context) else {
                    return Err(CheckEnd::NoMemory);
                };
                let ident = &routine.heading.ident;
                match push_block(alloc, source, block, ident, owner, entity, inside, out) {
                    Err(end) => Err(end),
                    Ok(inside) => {
                        let Ok(outside) = left(inside, owner, level) else {
                            return Err(CheckEnd::NoMemory);
                        };
                        Ok(outside)
                    }
                }
            }
        },
    }
}

#[cycle(blocks)]
fn push_routines(
    alloc: Global,
    source: &Source,
    routines: &[Routine],
    context: Context,
    out: &mut Lists,
) -> Result<Context, CheckEnd>
    requires { trees_of source.now.shapes.entries ≡ spec.trees_in source.now.end }
    ensures rows { (owner : Owner) → context ≡ context_of source.now.end owner
        → spec.Adds result source.now.end out.old out.new (spec.inner_listed source.now.end owner routines.now) (spec.inner_rows source.now.end owner routines.now) }
    ensures kept { IfOk result (λ c. c ≡ context) }
{
    let mut context = context;
    for routine in routines {
        match push_routine(alloc, source, routine, context, out) {
            Err(end) => return Err(end),
            Ok(same) => context = same,
        }
    }
    Ok(context)
}

// Behind the own block of a routine: the routines in its block, and its body.
#[cycle(blocks)]
fn push_rest(
    alloc: Global,
    source: &Source,
    block: &Block,
    routine: &RoutineEntity,
    context: Context,
    out: &mut Lists,
) -> Result<Context, CheckEnd>
    requires { trees_of source.now.shapes.entries ≡ spec.trees_in source.now.end }
    ensures rows { (owner : Owner) (ident : Ident) → context ≡ context_of source.now.end owner
        → spec.Adds result source.now.end out.old out.new (spec.inner_listed source.now.end owner (out-Block block.now).routines) (spec.rest_rows source.now.end ident routine.now owner (out-Block block.now)) }
    ensures kept { IfOk result (λ c. c ≡ context) }
{
    match push_routines(alloc, source, block.routines.as_slice(), context, out) {
        Err(end) => Err(end),
        Ok(context) => push_body(alloc, &block.body, routine, context, out),
    }
}

/// Adds the routines and the blocks of the block of a routine of this identifier, which another declares, or of the
/// program. What stands around its body is given back as it was.
#[cycle(blocks)]
pub fn push_block(
    alloc: Global,
    source: &Source,
    block: &Block,
    ident: &Text,
    other: Name,
    routine: &RoutineEntity,
    context: Context,
    out: &mut Lists,
) -> Result<Context, CheckEnd>
    requires { trees_of source.now.shapes.entries ≡ spec.trees_in source.now.end }
    ensures rows { (owner : Owner) → owner.name ≡ routine.now.name → context ≡ context_of source.now.end owner
        → spec.Adds result source.now.end out.old out.new (spec.block_listed source.now.end other ident.now routine.now owner block.now) (spec.block_rows source.now.end ident.now routine.now owner block.now) }
    ensures kept { IfOk result (λ c. c ≡ context) }
{
    match push_own(alloc, source, ident, other, routine, &block.body, out) {
        Err(end) => Err(end),
        Ok(()) => push_rest(alloc, source, block, routine, context, out),
    }
}
