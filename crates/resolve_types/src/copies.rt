//! Copies of regions, and of the table of types.
ghost use Rattle.std.specs.Prelude.{◌≡◌, IfOk};

use check_decl::copy_routine;
use check_rules::{Constant, Declared, Entity, FieldType, Region, Structure, Typing, WrittenType};
use dice_base::{Name, NoMemory, Text};
use sqlite_items::Items;
use std::alloc::Global;

/// A copy of identifiers.
pub fn copy_idents(alloc: Global, idents: &[Text]) -> Result<Items<Text>, NoMemory>
    ensures { IfOk result (λ xs. xs ≡ idents.now) }
{
    let mut all = Items::new(alloc);
    for ident in idents {
        all.push(ident.copy(alloc)?)?;
    }
    Ok(all)
}

fn copy_constant(alloc: Global, constant: &Constant) -> Result<Constant, NoMemory>
    ensures { IfOk result (λ c. c ≡ constant.now) }
{
    match constant {
        Constant::Number(value) => Ok(Constant::Number(*value)),
        Constant::Chars(text) => Ok(Constant::Chars(text.copy(alloc)?)),
    }
}

fn copy_entity(alloc: Global, entity: &Entity) -> Result<Entity, NoMemory>
    ensures { IfOk result (λ e. e ≡ entity.now) }
{
    match entity {
        Entity::ConstantOf(constant, typing) => {
            let constant = copy_constant(alloc, constant)?;
            Ok(Entity::ConstantOf(constant, *typing))
        }
        Entity::TypeOf(typing, declared) => Ok(Entity::TypeOf(*typing, *declared)),
        Entity::VariableOf(variable) => Ok(Entity::VariableOf(*variable)),
        Entity::FileOf(file) => Ok(Entity::FileOf(*file)),
        Entity::FieldOf(field) => Ok(Entity::FieldOf(*field)),
        Entity::RoutineOf(routine) => {
            let routine = copy_routine(alloc, routine)?;
            Ok(Entity::RoutineOf(routine))
        }
        Entity::StandardOf(standard) => Ok(Entity::StandardOf(*standard)),
    }
}

fn copy_declared(alloc: Global, declared: &[Declared]) -> Result<Items<Declared>, NoMemory>
    ensures { IfOk result (λ ds. ds ≡ declared.now) }
{
    let mut all = Items::new(alloc);
    for item in declared {
        let ident = item.ident.copy(alloc)?;
        let entity = copy_entity(alloc, &item.entity)?;
        all.push(Declared { ident, entity })?;
    }
    Ok(all)
}

fn copy_types(alloc: Global, types: &[(Text, Name)]) -> Result<Items<(Text, Name)>, NoMemory>
    ensures { IfOk result (λ ts. ts ≡ types.now) }
{
    let mut all = Items::new(alloc);
    for (ident, name) in types {
        all.push((ident.copy(alloc)?, *name))?;
    }
    Ok(all)
}

/// A copy of a region, with all that it declares.
pub fn copy_region(alloc: Global, region: &Region) -> Result<Region, NoMemory>
    ensures { IfOk result (λ r. r ≡ region.now) }
{
    let declared = copy_declared(alloc, region.declared.as_slice())?;
    let later = copy_idents(alloc, region.later.as_slice())?;
    let types = copy_types(alloc, region.types.as_slice())?;
    let constants = copy_idents(alloc, region.constants.as_slice())?;
    Ok(Region {
        declared,
        later,
        types,
        constants,
    })
}

fn copy_fields(alloc: Global, fields: &[FieldType]) -> Result<Items<FieldType>, NoMemory>
    ensures { IfOk result (λ fs. fs ≡ fields.now) }
{
    let mut all = Items::new(alloc);
    for field in fields {
        let ident = field.ident.copy(alloc)?;
        all.push(FieldType {
            ident,
            typing: field.typing,
            offset: field.offset,
        })?;
    }
    Ok(all)
}

fn copy_structure(alloc: Global, structure: &Structure) -> Result<Structure, NoMemory>
    ensures { IfOk result (λ s. s ≡ structure.now) }
{
    match structure {
        Structure::Enumeration(idents) => {
            let idents = copy_idents(alloc, idents.as_slice())?;
            Ok(Structure::Enumeration(idents))
        }
        Structure::Subrange(host, first, last) => Ok(Structure::Subrange(*host, *first, *last)),
        Structure::SetOf(packed, base) => Ok(Structure::SetOf(*packed, *base)),
        Structure::ArrayOf(packed, index, component) => {
            Ok(Structure::ArrayOf(*packed, *index, *component))
        }
        Structure::RecordOf(packed, fields) => {
            let fields = copy_fields(alloc, fields.as_slice())?;
            Ok(Structure::RecordOf(*packed, fields))
        }
        Structure::Pointer(domain) => Ok(Structure::Pointer(*domain)),
    }
}

/// A copy of the table of types.
pub fn copy_table(alloc: Global, types: &[WrittenType]) -> Result<Items<WrittenType>, NoMemory>
    ensures { IfOk result (λ ts. ts ≡ types.now) }
{
    let mut all = Items::new(alloc);
    for written in types {
        let structure = copy_structure(alloc, &written.structure)?;
        all.push(WrittenType {
            structure,
            words: written.words,
        })?;
    }
    Ok(all)
}

/// A copy of the types of pointer domains.
pub fn copy_domains(
    alloc: Global,
    domains: &[(Name, Typing)],
) -> Result<Items<(Name, Typing)>, NoMemory>
    ensures { IfOk result (λ ds. ds ≡ domains.now) }
{
    let mut all = Items::new(alloc);
    for (declared, typing) in domains {
        all.push((*declared, *typing))?;
    }
    Ok(all)
}

/// A copy of variables by their owners and identifiers.
pub fn copy_changed(alloc: Global, changed: &[(u32, Text)]) -> Result<Items<(u32, Text)>, NoMemory>
    ensures { IfOk result (λ vs. vs ≡ changed.now) }
{
    let mut all = Items::new(alloc);
    for (owner, ident) in changed {
        all.push((*owner, ident.copy(alloc)?))?;
    }
    Ok(all)
}
