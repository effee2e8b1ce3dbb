//! Where identifiers are looked for.
ghost use Rattle.std.specs.Prelude.{◌≡◌, ◌++◌, ◌∷◌, IfOk};
ghost use Rattle.std.specs.Option.{option_copied};
ghost use Rattle.check_rules.specs.Regions as spec;

use crate::kinds::{CLEAN, TWICE};
use crate::{Declared, Entity, Region};
use dice_base::{NoMemory, Text};
use sqlite_items::Items;
use std::alloc::Global;

/// Whether a list has the identifier. A linear search.
pub fn has_ident(idents: &[Text], ident: &[u8]) -> bool
    ensures { result ≡ spec.has_ident idents.now ident.now }
{
    for other in idents {
        if other.bytes() == ident {
            return true;
        }
    }
    false
}

/// What a region declares the identifier as so far. A linear search.
pub fn entity_in<'a>(declared: &'a [Declared], ident: &[u8]) -> Option<&'a Entity>
    ensures { option_copied result ≡ spec.entity_in declared.now ident.now }
{
    for item in declared {
        if item.ident.bytes() == ident {
            return Some(&item.entity);
        }
    }
    None
}

/// What the identifier stands for in a region, where it stands for `outer` outside: unknown where the region declares it
/// only later.
pub fn entity_through<'a>(
    region: &'a Region,
    ident: &[u8],
    outer: Option<&'a Entity>,
) -> Option<&'a Entity>
    ensures { option_copied result ≡ spec.entity_through region.now ident.now (option_copied outer.entry) }
{
    match entity_in(region.declared.as_slice(), ident) {
        Some(entity) => Some(entity),
        None => {
            if has_ident(region.later.as_slice(), ident) {
                None
            } else {
                outer
            }
        }
    }
}

/// What the identifier stands for within regions, the outermost of which is the first, where it stands for `outer` outside.
pub fn entity_within<'a>(
    outer: Option<&'a Entity>,
    regions: &'a [Region],
    ident: &[u8],
) -> Option<&'a Entity>
    ensures { option_copied result ≡ spec.entity_within (option_copied outer.entry) regions.now ident.now }
{
    let mut found = outer;
    for region in regions {
        found = entity_through(region, ident, found);
    }
    found
}

/// What the identifier stands for in the regions outside a block, in the block's region, and in those of records.
#[tactic(auto, using(crate::proofs::Nested::entity_within_append))]
pub fn entity_of<'a>(
    outer: &'a [Region],
    block: &'a Region,
    fields: &'a [Region],
    ident: &[u8],
) -> Option<&'a Entity>
    ensures { option_copied result ≡ spec.entity_of (outer.now ++ block.now ∷ fields.now) ident.now }
{
    let found = entity_within(None, outer, ident);
    let found = entity_through(block, ident, found);
    entity_within(found, fields, ident)
}

/// Declares an identifier in a region, where it is not declared yet.
pub fn declare(
    alloc: Global,
    region: &mut Region,
    ident: &Text,
    entity: Entity,
) -> Result<u8, NoMemory>
    ensures { IfOk result (λ kind. (region.new, kind) ≡ spec.declare region.old ident.now entity) }
{
    if entity_in(region.declared.as_slice(), ident.bytes()).is_some() {
        return Ok(TWICE);
    }
    let ident = ident.copy(alloc)?;
    region.declared.push(Declared { ident, entity })?;
    Ok(CLEAN)
}

/// A region that will declare these identifiers, and has declared none yet. Takes no memory.
pub fn new_region(alloc: Global, later: Items<Text>) -> Region
    ensures { result ≡ spec.new_region later }
{
    Region {
        declared: Items::new(alloc),
        later,
        types: Items::new(alloc),
        constants: Items::new(alloc),
    }
}
