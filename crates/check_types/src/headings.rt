//! Headings of procedures and functions (ISO 7185:1990, 6.6.1 to 6.6.3).
ghost use Rattle.std.specs.Prelude.{◌≡◌, ◌++◌, ◌∷◌, [], IfOk};
ghost use Rattle.std.specs.Option.{option_copied};
ghost use Rattle.check_types.specs.Headings as spec;
ghost use Rattle.check_rules.specs.Regions as regions;

use crate::state::Typed;
use crate::types::type_named;
use check_rules::{
    CLEAN, Entity, Parameter, Region, Typing, Variable, WRONG_TYPE, WrittenType, declare,
    domain_of, entity_of, entity_through, host_of, kind_unless, least, new_region,
};
use dice_base::{Name, NoMemory, Text};
use pascal_tree::{Heading, Section, copy_texts};
use sqlite_items::Items;
use std::alloc::Global;

/// A heading that is being read: the region of its parameters, those so far, and the least kind of fault.
#[derive(Drop)]
pub struct HeadingWalk {
    pub own: Region,
    pub parameters: Items<Parameter>,
    pub kind: u8,
}

/// A heading: its parameters, the type of its result, and the least kind of fault in it.
#[derive(Drop)]
pub struct JudgedHeading {
    pub parameters: Items<Parameter>,
    /// `Unknown` where it says none.
    pub result: Typing,
    pub kind: u8,
}

fn section_idents(alloc: Global, sections: &[Section]) -> Result<Items<Text>, NoMemory>
    ensures { IfOk result (λ xs. xs ≡ spec.section_idents sections.now) }
{
    let mut all = Items::new(alloc);
    for section in sections {
        let idents = copy_texts(alloc, section.idents.as_slice())?;
        all.append(idents)?;
    }
    Ok(all)
}

fn with_parameter(
    alloc: Global,
    by_place: bool,
    typing: Typing,
    ident: &Text,
    walk: HeadingWalk,
) -> Result<HeadingWalk, NoMemory>
    ensures { IfOk result (λ w. w ≡ spec.with_parameter by_place typing ident.now walk (regions.declare walk.own ident.now (spec.parameter_entity by_place typing))) }
{
    let HeadingWalk {
        mut own,
        mut parameters,
        kind,
    } = walk;
    let entity = Entity::VariableOf(Variable {
        owner: Name(0),
        typing,
        offset: 0,
        by_place,
        local: false,
    });
    let twice = declare(alloc, &mut own, ident, entity)?;
    let copied = ident.copy(alloc)?;
    parameters.push(Parameter {
        ident: copied,
        by_place,
        typing,
    })?;
    Ok(HeadingWalk {
        own,
        parameters,
        kind: least(kind, twice),
    })
}

fn with_parameters(
    alloc: Global,
    by_place: bool,
    typing: Typing,
    idents: &[Text],
    walk: HeadingWalk,
) -> Result<HeadingWalk, NoMemory>
    ensures { IfOk result (λ w. w ≡ spec.with_parameters by_place typing idents.now walk) }
{
    let mut so_far = walk;
    for ident in idents {
        so_far = with_parameter(alloc, by_place, typing, ident, so_far)?;
    }
    Ok(so_far)
}

fn with_section(
    alloc: Global,
    section: &Section,
    walk: HeadingWalk,
    typed: Typed,
) -> Result<HeadingWalk, NoMemory>
    ensures { IfOk result (λ w. w ≡ spec.with_section section.now walk (typed.typing, typed.kind)) }
{
    let HeadingWalk {
        own,
        parameters,
        kind,
    } = walk;
    let walk = HeadingWalk {
        own,
        parameters,
        kind: least(kind, typed.kind),
    };
    with_parameters(
        alloc,
        section.by_place,
        typed.typing,
        section.idents.as_slice(),
        walk,
    )
}

fn section_type(outer: &[Region], block: &Region, own: &Region, ident: &[u8]) -> Typed
    ensures { (result.typing, result.kind) ≡ spec.section_type (outer.now ++ block.now ∷ []) own.now ident.now }
{
    let outside = entity_of(outer, block, &[], ident);
    type_named(entity_through(own, ident, outside))
}

fn with_sections(
    alloc: Global,
    outer: &[Region],
    block: &Region,
    sections: &[Section],
    walk: HeadingWalk,
) -> Result<HeadingWalk, NoMemory>
    ensures { IfOk result (λ w. w ≡ spec.with_sections (outer.now ++ block.now ∷ []) sections.now walk) }
{
    let mut so_far = walk;
    for section in sections {
        let typed = section_type(outer, block, &so_far.own, section.shape.bytes());
        so_far = with_section(alloc, section, so_far, typed)?;
    }
    Ok(so_far)
}

fn may_be_result(table: &[WrittenType], typing: Typing) -> bool
    ensures { result ≡ spec.may_be_result table.now typing }
{
    match typing {
        Typing::Unknown => true,
        _ => host_of(table, typing).is_some() || domain_of(table, typing).is_some(),
    }
}

fn result_of(table: &[WrittenType], outer: &[Region], block: &Region, shape: Option<&Text>) -> Typed
    ensures { (result.typing, result.kind) ≡ spec.result_of table.now (outer.now ++ block.now ∷ []) (option_copied shape.entry) }
{
    match shape {
        None => Typed {
            typing: Typing::Unknown,
            kind: CLEAN,
        },
        Some(ident) => {
            let typed = type_named(entity_of(outer, block, &[], ident.bytes()));
            let may_be = may_be_result(table, typed.typing);
            Typed {
                typing: typed.typing,
                kind: least(typed.kind, kind_unless(may_be, WRONG_TYPE)),
            }
        }
    }
}

/// The heading of a routine in a block: its types are looked for in the block and outside.
pub fn heading_of(
    alloc: Global,
    table: &[WrittenType],
    outer: &[Region],
    block: &Region,
    heading: &Heading,
) -> Result<JudgedHeading, NoMemory>
    ensures { IfOk result (λ j. j ≡ spec.heading_of table.now (outer.now ++ block.now ∷ []) heading.now) }
{
    let sections = heading.sections.as_slice();
    let walk = HeadingWalk {
        own: new_region(alloc, section_idents(alloc, sections)?),
        parameters: Items::new(alloc),
        kind: CLEAN,
    };
    let walk = with_sections(alloc, outer, block, sections, walk)?;
    let typed = result_of(table, outer, block, heading.result.as_ref());
    Ok(JudgedHeading {
        parameters: walk.parameters,
        result: typed.typing,
        kind: least(walk.kind, typed.kind),
    })
}

/// A function whose heading does not say the type of its result.
pub fn lacks_result(heading: &Heading) -> bool
    ensures { result ≡ spec.lacks_result heading.now }
{
    heading.function && heading.result.is_none()
}

/// Nothing but class and identifier, as the block of a forward heading has it.
pub fn is_bare_heading(heading: &Heading) -> bool
    ensures { result ≡ spec.is_bare_heading heading.now }
{
    heading.sections.as_slice().is_empty() && heading.result.is_none()
}
