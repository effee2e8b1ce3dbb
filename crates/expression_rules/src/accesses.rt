//! Accesses (ISO 7185:1990, 6.5): where they begin, and their steps.
ghost use Rattle.std.specs.Prelude.{◌≡◌, IfOk};
ghost use Rattle.std.specs.Option.{option_copied};
ghost use Rattle.expression_rules.specs.Accesses as spec;
ghost use Rattle.expression_rules.specs.Values as values;
ghost use Rattle.check_rules.specs.Regions as region_rules;
ghost use Rattle.check_rules.specs.Typing as types;

use crate::notes::{Env, Judged, Notes, OpenedRecord, Place, notes_of, notes_of_both, notes_with};
use crate::operators::may_be_compatible;
use check_rules::{
    CLEAN, Domain, Entity, Field, FieldType, Structure, Typing, UNKNOWN, WRONG_CLASS, WRONG_TYPE,
    WrittenType, entity_within, kind_unless, structure_at,
};
use dice_base::{Name, NoMemory};
use std::alloc::Global;

fn lost_place(notes: Notes, kind: u8) -> Place
    ensures { result ≡ spec.lost_place notes kind }
{
    Place {
        typing: Typing::Unknown,
        packed: false,
        notes: notes_with(notes, kind),
    }
}

fn held_field(hold: u32, packed: bool, fields: &[FieldType], ident: &[u8]) -> Option<Field>
    ensures { result ≡ spec.held_field hold packed fields.now ident.now }
{
    for field in fields {
        if field.ident.bytes() == ident {
            return Some(Field {
                typing: field.typing,
                offset: field.offset,
                hold,
                packed,
            });
        }
    }
    None
}

fn field_through(
    table: &[WrittenType],
    record: OpenedRecord,
    ident: &[u8],
    outer: Option<Field>,
) -> Option<Field>
    ensures { result ≡ spec.field_through record.hold (types.structure_at table.now record.typing) ident.now outer }
{
    match structure_at(table, record.typing) {
        Some(Structure::RecordOf(packed, fields)) => {
            match held_field(record.hold, *packed, fields.as_slice(), ident) {
                Some(field) => Some(field),
                None => outer,
            }
        }
        _ => outer,
    }
}

/// The field of this identifier in the innermost of the records that `with` statements opened and that has it.
pub fn opened_field(env: &Env, ident: &[u8]) -> Option<Field>
    ensures { result ≡ spec.opened_field env.now ident.now }
{
    let mut found = None;
    for record in env.opened.as_slice() {
        found = field_through(env.table.as_slice(), *record, ident, found);
    }
    found
}

/// What the regions around a statement declare an identifier as, without the records that are opened.
pub fn declared_entity<'a>(env: &'a Env, ident: &[u8]) -> Option<&'a Entity>
    ensures { option_copied result ≡ region_rules.entity_of env.now.regions ident.now }
{
    entity_within(None, env.regions.as_slice(), ident)
}

// An identifier that is no field of the record at a place is looked for outward.
fn no_field(env: &Env, ident: &[u8]) -> u8
    ensures { result ≡ spec.no_field (spec.entity_at env.now ident.now) }
{
    match (opened_field(env, ident), declared_entity(env, ident)) {
        (None, None) => UNKNOWN,
        _ => WRONG_CLASS,
    }
}

fn field_in(fields: &[FieldType], ident: &[u8]) -> Option<Typing>
    ensures { result ≡ spec.field_in fields.now ident.now }
{
    for field in fields {
        if field.ident.bytes() == ident {
            return Some(field.typing);
        }
    }
    None
}

fn field_or_outer(
    env: &Env,
    ident: &[u8],
    packed: bool,
    notes: Notes,
    field: Option<Typing>,
) -> Place
    ensures { result ≡ spec.field_or_outer env.now ident.now packed notes field }
{
    match field {
        Some(typing) => Place {
            typing,
            packed,
            notes,
        },
        None => lost_place(notes, no_field(env, ident)),
    }
}

/// A field of the record at a place.
pub fn field_place(env: &Env, ident: &[u8], notes: Notes, structure: Option<&Structure>) -> Place
    ensures { result ≡ spec.field_place env.now ident.now notes (option_copied structure.entry) }
{
    match structure {
        Some(Structure::RecordOf(packed, fields)) => {
            field_or_outer(
                env,
                ident,
                *packed,
                notes,
                field_in(fields.as_slice(), ident),
            )
        }
        _ => field_or_outer(env, ident, false, notes, None),
    }
}

fn component_of_array(
    env: &Env,
    value: Judged,
    notes: Notes,
    structure: Option<&Structure>,
) -> Result<Place, NoMemory>
    ensures { IfOk result (λ p. p ≡ spec.component_of_array env.now value notes (option_copied structure.entry)) }
{
    let both = notes_of_both(notes, value.notes)?;
    match structure {
        Some(Structure::ArrayOf(packed, index, component)) => {
            let fits = may_be_compatible(env.table.as_slice(), *index, value.typing);
            let kind = kind_unless(fits, WRONG_TYPE);
            Ok(Place {
                typing: *component,
                packed: *packed,
                notes: notes_with(both, kind),
            })
        }
        _ => Ok(lost_place(both, WRONG_TYPE)),
    }
}

/// A component of the array at a place.
pub fn component_place(env: &Env, place: Place, value: Judged) -> Result<Place, NoMemory>
    ensures { IfOk result (λ p. p ≡ spec.component_place env.now place value) }
{
    match place.typing {
        Typing::Unknown => {
            let both = notes_of_both(place.notes, value.notes)?;
            Ok(lost_place(both, CLEAN))
        }
        typing => component_of_array(
            env,
            value,
            place.notes,
            structure_at(env.table.as_slice(), typing),
        ),
    }
}

fn declared_type(domains: &[(Name, Typing)], name: u32) -> Typing
    ensures { result ≡ spec.declared_type domains.now name }
{
    for (other, typing) in domains {
        if other.0 == name {
            return *typing;
        }
    }
    Typing::Unknown
}

/// What the pointer at a place points to.
pub fn domain_place(env: &Env, place: Place) -> Place
    ensures { result ≡ spec.domain_place env.now place }
{
    match place.typing {
        Typing::Unknown => lost_place(place.notes, CLEAN),
        typing => match structure_at(env.table.as_slice(), typing) {
            Some(Structure::Pointer(domain)) => {
                let typing = match domain {
                    Domain::Declared(name) => declared_type(env.domains.as_slice(), name.0),
                    Domain::Predeclared(host) => Typing::Ordinal(*host),
                };
                Place {
                    typing,
                    packed: false,
                    notes: place.notes,
                }
            }
            _ => lost_place(place.notes, WRONG_TYPE),
        },
    }
}

fn place(alloc: Global, typing: Typing, packed: bool) -> Place
    ensures { result ≡ spec.place typing packed values.no_notes }
{
    Place {
        typing,
        packed,
        notes: notes_of(alloc, CLEAN),
    }
}

fn first_declared(alloc: Global, entity: Option<&Entity>) -> Place
    ensures { result ≡ spec.first_place (option_copied entity.entry) }
{
    match entity {
        None => lost_place(notes_of(alloc, CLEAN), UNKNOWN),
        Some(Entity::VariableOf(variable)) => place(alloc, variable.typing, false),
        Some(Entity::FieldOf(field)) => place(alloc, field.typing, field.packed),
        Some(Entity::FileOf(_)) => lost_place(notes_of(alloc, CLEAN), WRONG_TYPE),
        Some(_) => lost_place(notes_of(alloc, CLEAN), WRONG_CLASS),
    }
}

/// Where an access with this identifier begins.
pub fn first_place(alloc: Global, env: &Env, ident: &[u8]) -> Place
    ensures { result ≡ spec.first_place (spec.entity_at env.now ident.now) }
{
    match opened_field(env, ident) {
        Some(field) => place(alloc, field.typing, field.packed),
        None => first_declared(alloc, declared_entity(env, ident)),
    }
}
