//! What is predeclared, in a region round the program (ISO 7185:1990, 6.2.2.10).
ghost use Rattle.std.specs.Prelude.{◌≡◌, ◌++◌, ◌∷◌, [], None, IfOk, OnOk};
ghost use Rattle.predeclared.specs.Predeclared as groups;
ghost use Rattle.check_rules.specs.Regions as spec;
ghost use Rattle.check_rules.specs.declared.entity.Entity.TheVariants as entities;
ghost use Rattle.check_rules.specs.declared.entity.Constant.TheVariants as constants;
ghost use Rattle.check_rules.specs.declared.typing.Typing.TheVariants as typings;

use check_rules::{
    Constant, Declared, Entity, Host, Region, Standard, StandardFile, Typing, new_region,
};
use dice_base::{NoMemory, Text};
use sqlite_items::Items;
use std::alloc::Global;

fn push(
    alloc: Global,
    out: &mut Items<Declared>,
    ident: &[u8],
    entity: Entity,
) -> Result<(), NoMemory>
    ensures { OnOk result (out.new ≡ out.old ++ spec.declaration_of ident.now entity ∷ []) }
{
    let ident = Text::from_slice(alloc, ident)?;
    out.push(Declared { ident, entity })?;
    Ok(())
}

fn host_type(host: Host) -> Entity
    ensures { result ≡ entities.TypeOf (typings.Ordinal host) None }
{
    Entity::TypeOf(Typing::Ordinal(host), None)
}

fn push_types(alloc: Global, out: &mut Items<Declared>) -> Result<(), NoMemory>
    ensures { OnOk result (out.new ≡ out.old ++ spec.standard_types) }
{
    push(alloc, out, b"integer", host_type(Host::Integer))?;
    push(alloc, out, b"boolean", host_type(Host::Boolean))?;
    push(alloc, out, b"char", host_type(Host::Char))
}

fn constant(value: i32, host: Host) -> Entity
    ensures { result ≡ entities.ConstantOf (constants.Number value) (typings.Ordinal host) }
{
    Entity::ConstantOf(Constant::Number(value), Typing::Ordinal(host))
}

fn push_constants(alloc: Global, out: &mut Items<Declared>) -> Result<(), NoMemory>
    ensures { OnOk result (out.new ≡ out.old ++ spec.standard_constants) }
{
    push(alloc, out, b"false", constant(0, Host::Boolean))?;
    push(alloc, out, b"true", constant(1, Host::Boolean))?;
    push(alloc, out, b"maxint", constant(32_767, Host::Integer))
}

fn push_files(alloc: Global, out: &mut Items<Declared>) -> Result<(), NoMemory>
    ensures { OnOk result (out.new ≡ out.old ++ spec.standard_files) }
{
    push(alloc, out, b"input", Entity::FileOf(StandardFile::Input))?;
    push(alloc, out, b"output", Entity::FileOf(StandardFile::Output))
}

fn push_arithmetic_functions(alloc: Global, out: &mut Items<Declared>) -> Result<(), NoMemory>
    ensures { OnOk result (out.new ≡ out.old ++ groups.arithmetic_functions) }
{
    push(alloc, out, b"abs", Entity::StandardOf(Standard::Abs))?;
    push(alloc, out, b"sqr", Entity::StandardOf(Standard::Sqr))?;
    push(alloc, out, b"odd", Entity::StandardOf(Standard::Odd))
}

fn push_ordinal_functions(alloc: Global, out: &mut Items<Declared>) -> Result<(), NoMemory>
    ensures { OnOk result (out.new ≡ out.old ++ groups.ordinal_functions) }
{
    push(alloc, out, b"ord", Entity::StandardOf(Standard::Ord))?;
    push(alloc, out, b"chr", Entity::StandardOf(Standard::Chr))?;
    push(alloc, out, b"succ", Entity::StandardOf(Standard::Succ))
}

fn push_last_functions(alloc: Global, out: &mut Items<Declared>) -> Result<(), NoMemory>
    ensures { OnOk result (out.new ≡ out.old ++ groups.last_functions) }
{
    push(alloc, out, b"pred", Entity::StandardOf(Standard::Pred))?;
    push(alloc, out, b"eof", Entity::StandardOf(Standard::Eof))?;
    push(alloc, out, b"eoln", Entity::StandardOf(Standard::Eoln))
}

fn push_pointer_procedures(alloc: Global, out: &mut Items<Declared>) -> Result<(), NoMemory>
    ensures { OnOk result (out.new ≡ out.old ++ groups.pointer_procedures) }
{
    push(alloc, out, b"new", Entity::StandardOf(Standard::New))?;
    push(
        alloc,
        out,
        b"dispose",
        Entity::StandardOf(Standard::Dispose),
    )
}

fn push_input_procedures(alloc: Global, out: &mut Items<Declared>) -> Result<(), NoMemory>
    ensures { OnOk result (out.new ≡ out.old ++ groups.input_procedures) }
{
    push(alloc, out, b"read", Entity::StandardOf(Standard::Read))?;
    push(alloc, out, b"readln", Entity::StandardOf(Standard::Readln))
}

fn push_output_procedures(alloc: Global, out: &mut Items<Declared>) -> Result<(), NoMemory>
    ensures { OnOk result (out.new ≡ out.old ++ groups.output_procedures) }
{
    push(alloc, out, b"write", Entity::StandardOf(Standard::Write))?;
    push(
        alloc,
        out,
        b"writeln",
        Entity::StandardOf(Standard::Writeln),
    )
}

fn push_functions(alloc: Global, out: &mut Items<Declared>) -> Result<(), NoMemory>
    ensures { OnOk result (out.new ≡ out.old ++ spec.standard_functions) }
{
    push_arithmetic_functions(alloc, out)?;
    push_ordinal_functions(alloc, out)?;
    push_last_functions(alloc, out)
}

fn push_procedures(alloc: Global, out: &mut Items<Declared>) -> Result<(), NoMemory>
    ensures { OnOk result (out.new ≡ out.old ++ spec.standard_procedures) }
{
    push_pointer_procedures(alloc, out)?;
    push_input_procedures(alloc, out)?;
    push_output_procedures(alloc, out)
}

/// The region of what is predeclared.
pub fn predeclared_region(alloc: Global) -> Result<Region, NoMemory>
    ensures { IfOk result (λ r. r ≡ spec.predeclared_region) }
{
    let mut declared = Items::new(alloc);
    push_types(alloc, &mut declared)?;
    push_constants(alloc, &mut declared)?;
    push_files(alloc, &mut declared)?;
    push_functions(alloc, &mut declared)?;
    push_procedures(alloc, &mut declared)?;
    let later = Items::new(alloc);
    let Region {
        later,
        types,
        constants,
        ..
    } = new_region(alloc, later);
    Ok(Region {
        declared,
        later,
        types,
        constants,
    })
}
