//! What the end of the walk through a program knows of its owners.
ghost use Rattle.std.specs.Prelude.{◌≡◌, IfOk};
ghost use Rattle.std.specs.Option.{option_copied};
ghost use Rattle.resolve_types.specs.Programs as spec;

use crate::headings::{core_heading, core_variables};
use check_decl::{At, BodyPlace, Layout, Row};
use check_rules::{Region, RoutineEntity, Typing};
use core_tree::{CoreLabel, CoreRoutine};
use dice_base::{Name, NoMemory, Text};
use resolve_expr::OwnerWords;
use sqlite_items::Items;
use std::alloc::Global;

fn layout_for(layouts: &[Layout], name: Name) -> Option<&Layout>
    ensures { option_copied result ≡ spec.layout_for layouts.now name }
{
    for layout in layouts {
        if layout.owner.0 == name.0 {
            return Some(layout);
        }
    }
    None
}

fn place_for(places: &[BodyPlace], name: Name) -> Option<&BodyPlace>
    ensures { option_copied result ≡ spec.place_for places.now name }
{
    for place in places {
        if place.owner.name.0 == name.0 {
            return Some(place);
        }
    }
    None
}

/// What a routine or the program declares. A linear search.
pub fn region_of(end: &At, name: Name) -> &Region
    ensures { result.now ≡ spec.region_of end.now name }
{
    match place_for(end.known.places.as_slice(), name) {
        Some(place) => &place.region,
        None => &end.block,
    }
}

/// The level and the words of a routine or of the program. A linear search.
pub fn owner_words(end: &At, name: Name) -> OwnerWords
    ensures { result ≡ spec.owner_words end.now name }
{
    match layout_for(end.known.layouts.as_slice(), name) {
        Some(layout) => OwnerWords {
            owner: layout.owner,
            level: layout.level,
            words: layout.words,
        },
        None => OwnerWords {
            owner: name,
            level: 0,
            words: 0,
        },
    }
}

fn rows_of(end: &At, name: Name) -> &[Row]
    ensures { result.now ≡ spec.rows_of end.now name }
{
    match layout_for(end.known.layouts.as_slice(), name) {
        Some(layout) => layout.rows.as_slice(),
        None => &[],
    }
}

/// A routine of this identifier, which another declares, or the program. Takes memory for its heading and its variables.
pub fn core_routine(
    alloc: Global,
    end: &At,
    owner: Name,
    ident: &Text,
    routine: &RoutineEntity,
    labels: Items<CoreLabel>,
) -> Result<CoreRoutine, NoMemory>
    ensures { IfOk result (λ r. r ≡ spec.core_routine end.now owner ident.now routine.now labels) }
{
    let heading = core_heading(alloc, routine)?;
    let variables = core_variables(alloc, &heading, rows_of(end, routine.name))?;
    let ident = ident.copy(alloc)?;
    Ok(CoreRoutine {
        name: routine.name,
        owner,
        ident,
        level: routine.level.min(255) as u8,
        heading,
        variables,
        labels,
    })
}

/// The program, as a routine that takes and gives nothing. Takes no memory.
pub fn program_entity(alloc: Global) -> RoutineEntity
    ensures { result ≡ spec.program_entity }
{
    RoutineEntity {
        name: Name(1),
        function: false,
        level: 0,
        parameters: Items::new(alloc),
        result: Typing::Unknown,
        forward: false,
    }
}
