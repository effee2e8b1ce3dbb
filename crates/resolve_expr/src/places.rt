//! Accesses (ISO 7185:1990, 6.5): where they begin, and their steps, as operations.
ghost use Rattle.std.specs.Prelude.{◌≡◌, IfOk};
ghost use Rattle.std.specs.Option.{option_copied};
ghost use Rattle.expression_rules.specs.Accesses as accesses;
ghost use Rattle.check_rules.specs.Typing as types;
ghost use Rattle.resolve_expr.specs.Nodes as spec;

use crate::context::{Context, KeptNode, OwnerWords};
use crate::kept::{around, both, leaf};
use crate::types::{load_of, shape_of, storage_of};
use check_rules::{
    Domain, Entity, Field, FieldType, Structure, Typing, Variable, WrittenType, bounds_of,
    domain_of, structure_at, words_of,
};
use core_tree::{Op, PlaceOp, Scope, Variable as Place, WordOp};
use dice_base::{Name, NoMemory};
use expression_rules::{Env, declared_entity, opened_field};
use std::alloc::Global;

/// What breaks a rule of the check: it has no meaning, and any operation stands for it. Takes no memory.
pub fn lost(alloc: Global) -> KeptNode
    ensures { result ≡ spec.kept_node spec.lost }
{
    KeptNode {
        typing: Typing::Unknown,
        kept: leaf(alloc, Op::Word(WordOp::Nil), None),
    }
}

fn owner_in(owners: &[OwnerWords], name: Name) -> Option<OwnerWords>
    ensures { result ≡ spec.owner_in owners.now name }
{
    for owner in owners {
        if owner.owner.0 == name.0 {
            return Some(*owner);
        }
    }
    None
}

/// Whose variables those of an owner of this level are, seen from a statement of that level. Takes no memory.
pub fn scope_from(level: u32, owner: u32) -> Scope
    ensures { result ≡ spec.scope_from level owner }
{
    if owner == 0 {
        Scope::Program
    } else {
        Scope::Routine(level.saturating_sub(owner).min(255) as u8)
    }
}

fn owner_scope(context: &Context, owner: Option<OwnerWords>) -> Scope
    ensures { result ≡ spec.owner_scope context.now owner }
{
    match owner {
        Some(words) => scope_from(context.level, words.level),
        None => Scope::Program,
    }
}

fn frame_words(owner: Option<OwnerWords>) -> u32
    ensures { result ≡ spec.frame_words owner }
{
    match owner {
        Some(words) => { if words.level == 0 { 0 } else { words.words } }
        None => 0,
    }
}

/// Where a variable lies that this owner declares, at this offset in words. Takes no memory.
pub fn place_of(context: &Context, owner: Name, offset: u32, by_place: bool) -> Place
    ensures { result ≡ spec.place_of context.now (spec.owner_in context.now.owners owner) offset by_place }
{
    let found = owner_in(context.owners.as_slice(), owner);
    Place {
        scope: owner_scope(context, found),
        offset,
        by_place,
        frame_words: frame_words(found),
    }
}

/// A variable, as a place. Takes no memory.
pub fn variable_node(alloc: Global, context: &Context, variable: Variable) -> KeptNode
    ensures { result ≡ spec.kept_node (spec.variable_node context.now variable) }
{
    let place = place_of(context, variable.owner, variable.offset, variable.by_place);
    let op = Op::Place(PlaceOp::Variable(place));
    KeptNode {
        typing: variable.typing,
        kept: leaf(alloc, op, shape_of(variable.typing)),
    }
}

/// A field of a record that a `with` holds, as a place. Takes no memory.
pub fn held_node(alloc: Global, field: Field) -> KeptNode
    ensures { result ≡ spec.kept_node (spec.held_node field) }
{
    let op = Op::Place(PlaceOp::Held(field.hold, field.offset));
    KeptNode {
        typing: field.typing,
        kept: leaf(alloc, op, shape_of(field.typing)),
    }
}

/// The variable or the field at which an access begins. Takes no memory.
pub fn first_node(alloc: Global, context: &Context, ident: &[u8]) -> KeptNode
    ensures { result ≡ spec.kept_node (spec.first_node context.now (accesses.entity_at context.now.env ident.now)) }
{
    match opened_field(&context.env, ident) {
        Some(field) => held_node(alloc, field),
        None => match declared_entity(&context.env, ident) {
            Some(Entity::VariableOf(variable)) => variable_node(alloc, context, *variable),
            Some(Entity::FieldOf(field)) => held_node(alloc, *field),
            _ => lost(alloc),
        },
    }
}

fn field_node_in(
    alloc: Global,
    place: KeptNode,
    fields: &[FieldType],
    ident: &[u8],
) -> Result<KeptNode, NoMemory>
    ensures { (x : spec.Node) → place ≡ spec.kept_node x
        → IfOk result (λ r. r ≡ spec.kept_node (spec.field_node_in x fields.now ident.now)) }
{
    for field in fields {
        if field.ident.bytes() == ident {
            let op = Op::Place(PlaceOp::Field(field.offset));
            let kept = around(alloc, op, shape_of(field.typing), place.kept)?;
            return Ok(KeptNode {
                typing: field.typing,
                kept,
            });
        }
    }
    Ok(lost(alloc))
}

/// A field of the record at a place (ISO 7185:1990, 6.5.3.3).
pub fn field_node(
    alloc: Global,
    table: &[WrittenType],
    place: KeptNode,
    ident: &[u8],
) -> Result<KeptNode, NoMemory>
    ensures { (x : spec.Node) → place ≡ spec.kept_node x
        → IfOk result (λ r. r ≡ spec.kept_node (spec.field_node table.now x ident.now)) }
{
    match structure_at(table, place.typing) {
        Some(Structure::RecordOf(_, fields)) => {
            field_node_in(alloc, place, fields.as_slice(), ident)
        }
        _ => Ok(lost(alloc)),
    }
}

fn component_of(
    alloc: Global,
    table: &[WrittenType],
    place: KeptNode,
    index: Typing,
    component: Typing,
    value: KeptNode,
) -> Result<KeptNode, NoMemory>
    ensures { (x y : spec.Node) → place ≡ spec.kept_node x → value ≡ spec.kept_node y
        → IfOk result (λ r. r ≡ spec.kept_node (spec.component_of table.now x y index component)) }
{
    let (first, last) = bounds_of(table, index);
    let op = Op::Place(PlaceOp::Index(first, last, words_of(table, component)));
    let kept = both(alloc, op, shape_of(place.typing), place.kept, value.kept)?;
    Ok(KeptNode {
        typing: component,
        kept,
    })
}

/// A component of the array at a place (ISO 7185:1990, 6.5.3.2).
pub fn component_node(
    alloc: Global,
    table: &[WrittenType],
    place: KeptNode,
    value: KeptNode,
) -> Result<KeptNode, NoMemory>
    ensures { (x y : spec.Node) → place ≡ spec.kept_node x → value ≡ spec.kept_node y
        → IfOk result (λ r. r ≡ spec.kept_node (spec.component_node table.now x y)) }
{
    match structure_at(table, place.typing) {
        Some(Structure::ArrayOf(_, index, component)) => {
            component_of(alloc, table, place, *index, *component, value)
        }
        _ => Ok(lost(alloc)),
    }
}

fn declared_type(domains: &[(Name, Typing)], name: Name) -> Typing
    ensures { result ≡ accesses.declared_type domains.now name.0 }
{
    for (declared, typing) in domains {
        if declared.0 == name.0 {
            return *typing;
        }
    }
    Typing::Unknown
}

/// The type to which a pointer of this domain leads. Takes no memory.
pub fn domain_type(domains: &[(Name, Typing)], domain: Domain) -> Typing
    ensures { result ≡ accesses.domain_type domains.now domain }
{
    match domain {
        Domain::Declared(name) => declared_type(domains, name),
        Domain::Predeclared(host) => Typing::Ordinal(host),
    }
}

fn pointed_node(
    alloc: Global,
    table: &[WrittenType],
    place: KeptNode,
    typing: Typing,
) -> Result<KeptNode, NoMemory>
    ensures { (x : spec.Node) → place ≡ spec.kept_node x
        → IfOk result (λ r. r ≡ spec.kept_node (spec.pointed_node table.now x typing)) }
{
    let op = Op::Place(PlaceOp::Dereference(words_of(table, typing)));
    let kept = around(alloc, op, shape_of(typing), place.kept)?;
    Ok(KeptNode { typing, kept })
}

/// The variable to which the pointer at a place leads (ISO 7185:1990, 6.5.4).
pub fn domain_node(alloc: Global, env: &Env, place: KeptNode) -> Result<KeptNode, NoMemory>
    ensures { (x : spec.Node) → place ≡ spec.kept_node x
        → IfOk result (λ r. r ≡ spec.kept_node (spec.domain_node env.now x)) }
{
    let table = env.table.as_slice();
    match domain_of(table, place.typing) {
        Some(domain) => {
            let typing = domain_type(env.domains.as_slice(), domain);
            pointed_node(alloc, table, place, typing)
        }
        None => Ok(lost(alloc)),
    }
}

/// The value of the variable at a place.
pub fn loaded(alloc: Global, table: &[WrittenType], place: KeptNode) -> Result<KeptNode, NoMemory>
    ensures { (x : spec.Node) → place ≡ spec.kept_node x
        → IfOk result (λ r. r ≡ spec.kept_node (spec.loaded table.now x)) }
{
    let op = load_of(storage_of(table, place.typing));
    let kept = around(alloc, op, None, place.kept)?;
    Ok(KeptNode {
        typing: place.typing,
        kept,
    })
}
