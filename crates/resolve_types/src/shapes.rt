//! Types of the check as shapes (ISO 7185:1990, 6.4).
ghost use Rattle.std.specs.Prelude.{◌≡◌, map, IfOk};
ghost use Rattle.core_tree.specs.Shapes.{trees_of};
ghost use Rattle.resolve_expr.specs.Nodes as nodes;
ghost use Rattle.resolve_types.specs.Resolved as spec;

use crate::copies::copy_idents;
use check_rules::{Domain, FieldType, Host, Structure, Typing, WrittenType};
use core_tree::{Domain as ShapeDomain, DomainShape, FieldShape, Shape, ShapeTable, WrittenShape};
use dice_base::{Name, NoMemory};
use resolve_expr::shape_of;
use sqlite_items::Items;
use std::alloc::Global;

fn host_shape(host: Host) -> Shape
    ensures { result ≡ nodes.host_shape host }
{
    match host {
        Host::Integer => Shape::Integer,
        Host::Boolean => Shape::Boolean,
        Host::Char => Shape::Char,
        Host::Enumeration(number) => Shape::Written(number),
    }
}

/// The shape of the type of a declaration; the integers for a type that no declaration has. Takes no memory.
pub fn declared_shape(typing: Typing) -> Shape
    ensures { result ≡ spec.declared_shape typing }
{
    match shape_of(typing) {
        Some(shape) => shape,
        None => Shape::Integer,
    }
}

fn shape_domain(domain: Domain) -> ShapeDomain
    ensures { result ≡ spec.shape_domain domain }
{
    match domain {
        Domain::Declared(name) => ShapeDomain::Declared(name),
        Domain::Predeclared(host) => ShapeDomain::Predeclared(host_shape(host)),
    }
}

fn field_shapes(alloc: Global, fields: &[FieldType]) -> Result<Items<FieldShape>, NoMemory>
    ensures { IfOk result (λ fs. fs ≡ map spec.field_shape fields.now) }
{
    let mut all = Items::new(alloc);
    for field in fields {
        let ident = field.ident.copy(alloc)?;
        all.push(FieldShape {
            ident,
            shape: declared_shape(field.typing),
        })?;
    }
    Ok(all)
}

fn written_shape(alloc: Global, structure: &Structure) -> Result<WrittenShape, NoMemory>
    ensures { IfOk result (λ s. s ≡ spec.written_shape structure.now) }
{
    match structure {
        Structure::Enumeration(idents) => {
            let idents = copy_idents(alloc, idents.as_slice())?;
            Ok(WrittenShape::Enumeration(idents))
        }
        Structure::Subrange(host, first, last) => {
            Ok(WrittenShape::Subrange(host_shape(*host), *first, *last))
        }
        Structure::SetOf(_, base) => Ok(WrittenShape::SetOf(declared_shape(*base))),
        Structure::ArrayOf(_, index, component) => Ok(WrittenShape::ArrayOf(
            declared_shape(*index),
            declared_shape(*component),
        )),
        Structure::RecordOf(_, fields) => {
            let fields = field_shapes(alloc, fields.as_slice())?;
            Ok(WrittenShape::RecordOf(fields))
        }
        Structure::Pointer(domain) => Ok(WrittenShape::Pointer(shape_domain(*domain))),
    }
}

/// The table of types as the table of shapes. Takes memory for each entry and for a copy of each identifier in it.
pub fn shape_table(alloc: Global, types: &[WrittenType]) -> Result<ShapeTable, NoMemory>
    ensures shapes { IfOk result (λ t. map (λ e. e.shape) t.entries ≡ spec.written_shapes types.now) }
    ensures trees { IfOk result (λ t. trees_of t.entries ≡ spec.type_trees types.now) }
    ensures words { spec.HaveShapeWords types.now
        → IfOk result (λ t. map (λ e. e.words) t.entries ≡ map (λ w. w.words) types.now) }
{
    let mut table = ShapeTable::new(alloc);
    for written in types {
        let shape = written_shape(alloc, &written.structure)?;
        table.push(shape)?;
    }
    Ok(table)
}

/// The types of pointer domains, in the same order. Takes memory for each.
pub fn domain_shapes(
    alloc: Global,
    domains: &[(Name, Typing)],
) -> Result<Items<DomainShape>, NoMemory>
    ensures { IfOk result (λ ds. ds ≡ map spec.domain_shape domains.now) }
{
    let mut all = Items::new(alloc);
    for (declared, typing) in domains {
        all.push(DomainShape {
            declared: *declared,
            shape: declared_shape(*typing),
        })?;
    }
    Ok(all)
}
