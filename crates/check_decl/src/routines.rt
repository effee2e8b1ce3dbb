//! Procedures and functions (ISO 7185:1990, 6.6.1 and 6.6.2): their names, and the places in which their blocks begin.
ghost use Rattle.std.specs.Prelude.{◌≡◌, map, IfOk};
ghost use Rattle.std.specs.Option.{option_copied};
ghost use Rattle.check_decl.specs.BlockRules as spec;
ghost use Rattle.check_decl.specs.Blocks as folds;

use crate::items::{Judging, counted_sum, with_variable};
use crate::place::{At, Known, Owner, Row};
use check_rules::{CLEAN, Entity, Parameter, RoutineEntity, new_region, words_of};
use dice_base::{Name, NoMemory, Text};
use pascal_tree::{Heading, Routine};
use sqlite_items::Items;
use std::alloc::Global;

/// The name under which a heading declares its routine, whether it is `forward`, and the kind of that.
#[derive(Clone, Copy)]
pub struct Naming {
    pub name: Name,
    pub forward: bool,
    pub kind: u8,
}

fn is_same_class(first: bool, second: bool) -> bool
    ensures { result ≡ spec.is_same_class first second }
{
    first == second
}

#[tactic(auto, unfolding(crate::specs::Blocks::routine_judge, crate::specs::Blocks::block_judge))]
fn is_block_for(heading: &Heading, routine: &Routine) -> bool
    ensures { result ≡ spec.is_block_for heading.now (folds.routine_judge folds.bodyless routine.now) }
{
    routine.block.is_some()
        && routine.heading.ident.bytes() == heading.ident.bytes()
        && is_same_class(heading.function, routine.heading.function)
}

#[tactic(auto, unfolding(crate::specs::Blocks::routine_judge, crate::specs::Blocks::block_judge))]
fn name_of(routine: &Routine) -> Name
    ensures { result ≡ (folds.routine_judge folds.bodyless routine.now).name }
{
    routine.name
}

/// The next item that has the block of a forward heading: with its identifier, and of its class.
pub fn block_for(heading: &Heading, later: &[Routine]) -> Option<Name>
    ensures { result ≡ spec.block_for heading.now (map (folds.routine_judge folds.bodyless) later.now) }
{
    for routine in later {
        if is_block_for(heading, routine) {
            return Some(name_of(routine));
        }
    }
    None
}

fn copy_parameters(alloc: Global, parameters: &[Parameter]) -> Result<Items<Parameter>, NoMemory>
    ensures { IfOk result (λ ps. ps ≡ parameters.now) }
{
    let mut all = Items::new(alloc);
    for parameter in parameters {
        let ident = parameter.ident.copy(alloc)?;
        all.push(Parameter {
            ident,
            by_place: parameter.by_place,
            typing: parameter.typing,
        })?;
    }
    Ok(all)
}

/// A copy of what is known of a routine.
pub fn copy_routine(alloc: Global, routine: &RoutineEntity) -> Result<RoutineEntity, NoMemory>
    ensures { IfOk result (λ f. f ≡ routine.now) }
{
    let parameters = copy_parameters(alloc, routine.parameters.as_slice())?;
    Ok(RoutineEntity {
        name: routine.name,
        function: routine.function,
        level: routine.level,
        parameters,
        result: routine.result,
        forward: routine.forward,
    })
}

/// The routine whose forward heading an item has the block of.
pub fn forward_in<'a>(
    name: Name,
    block: bool,
    entity: Option<&'a Entity>,
) -> Option<&'a RoutineEntity>
    ensures { option_copied result ≡ spec.forward_in name block (option_copied entity.entry) }
{
    match entity {
        Some(Entity::RoutineOf(routine)) => {
            if block && routine.forward && routine.name.0 == name.0 {
                Some(routine)
            } else {
                None
            }
        }
        _ => None,
    }
}

fn push_parameter_idents(alloc: Global, parameters: &[Parameter]) -> Result<Items<Text>, NoMemory>
    ensures { IfOk result (λ xs. xs ≡ spec.parameter_idents parameters.now) }
{
    let mut all = Items::new(alloc);
    for parameter in parameters {
        all.push(parameter.ident.copy(alloc)?)?;
    }
    Ok(all)
}

fn with_parameters(
    alloc: Global,
    owner: Name,
    parameters: &[Parameter],
    first: Judging,
) -> Result<Judging, NoMemory>
    ensures { IfOk result (λ r. (r.here, r.kind) ≡ spec.with_parameters owner parameters.now (first.here, first.kind)) }
{
    let mut so_far = first;
    for parameter in parameters {
        so_far = with_variable(
            alloc,
            owner,
            &parameter.ident,
            parameter.typing,
            parameter.by_place,
            false,
            so_far,
        )?;
    }
    Ok(so_far)
}

fn with_result_row(
    alloc: Global,
    ident: &Text,
    routine: &RoutineEntity,
    here: At,
) -> Result<At, NoMemory>
    ensures { IfOk result (λ at. at ≡ spec.with_result_row ident.now routine.now here) }
{
    if !routine.function {
        return Ok(here);
    }
    let At {
        known,
        block,
        mut rows,
        words,
    } = here;
    let copied = ident.copy(alloc)?;
    rows.push(Row {
        ident: copied,
        typing: routine.result,
        offset: words,
        by_place: false,
    })?;
    let own = words_of(known.table.as_slice(), routine.result);
    Ok(At {
        known,
        block,
        rows,
        words: counted_sum(words, own),
    })
}

/// The begin of a block that will declare these identifiers. Takes no memory.
pub fn new_block(alloc: Global, known: Known, idents: Items<Text>) -> At
    ensures { result ≡ spec.new_block known idents }
{
    At {
        known,
        block: new_region(alloc, idents),
        rows: Items::new(alloc),
        words: 0,
    }
}

/// The begin of the block of a routine: its result has the first words, then its parameters.
pub fn place_inside(
    alloc: Global,
    ident: &Text,
    routine: &RoutineEntity,
    idents: Items<Text>,
    known: Known,
) -> Result<At, NoMemory>
    ensures { IfOk result (λ at. at ≡ spec.place_inside ident.now routine.now idents known) }
{
    let mut all = push_parameter_idents(alloc, routine.parameters.as_slice())?;
    all.append(idents)?;
    let here = new_block(alloc, known, all);
    let here = with_result_row(alloc, ident, routine, here)?;
    let first = Judging { here, kind: CLEAN };
    let judged = with_parameters(alloc, routine.name, routine.parameters.as_slice(), first)?;
    Ok(judged.here)
}

/// A copy of names.
pub fn copy_names(alloc: Global, names: &[Name]) -> Result<Items<Name>, NoMemory>
    ensures { IfOk result (λ ns. ns ≡ names.now) }
{
    let mut all = Items::new(alloc);
    for name in names {
        all.push(*name)?;
    }
    Ok(all)
}

/// A routine as the owner of its block, in the block of another.
pub fn owner_of(alloc: Global, routine: &RoutineEntity, owner: &Owner) -> Result<Owner, NoMemory>
    ensures { IfOk result (λ o. o ≡ spec.owner_of routine.now owner.now) }
{
    let mut functions = copy_names(alloc, owner.functions.as_slice())?;
    functions.push(routine.name)?;
    Ok(Owner {
        name: routine.name,
        level: routine.level,
        functions,
    })
}
