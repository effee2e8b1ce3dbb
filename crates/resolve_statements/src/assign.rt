//! Assignments (ISO 7185:1990, 6.8.2.2), and statements of one expression.
ghost use Rattle.std.specs.Prelude.{◌≡◌, IfOk};
ghost use Rattle.expression_rules.specs.Accesses as accesses;
ghost use Rattle.resolve_expr.specs.Nodes as nodes;
ghost use Rattle.resolve_expr.specs.Expressions as folds;
ghost use Rattle.resolve_statements.specs.Forms as spec;

use crate::form::{KeptForm, form_with};
use crate::parts::{one_part, two_parts};
use check_rules::{Entity, RoutineEntity};
use core_tree::{Op, PlaceOp, StatementOp};
use dice_base::NoMemory;
use expression_rules::{declared_entity, opened_field};
use pascal_tree::Access;
use resolve_expr::{Context, KeptNode, leaf, place_node, place_of, shape_of, storage_of};
use std::alloc::Global;

// The result of a function, as a place.
fn result_node(alloc: Global, context: &Context, function: &RoutineEntity) -> KeptNode
    ensures { result ≡ nodes.kept_node (spec.result_node context.now function.now) }
{
    let place = place_of(context, function.name, 0, false);
    let op = Op::Place(PlaceOp::Variable(place));
    KeptNode {
        typing: function.result,
        kept: leaf(alloc, op, shape_of(function.result)),
    }
}

fn target_of(alloc: Global, context: &Context, place: KeptNode, ident: &[u8]) -> KeptNode
    ensures { (x : nodes.Node) → place ≡ nodes.kept_node x
        → result ≡ nodes.kept_node (spec.target_of context.now x (accesses.entity_at context.now.env ident.now)) }
{
    if opened_field(&context.env, ident).is_some() {
        return place;
    }
    match declared_entity(&context.env, ident) {
        Some(Entity::RoutineOf(function)) => result_node(alloc, context, function),
        _ => place,
    }
}

/// The place to which an assignment goes.
pub fn target_node(alloc: Global, context: &Context, access: &Access) -> Result<KeptNode, NoMemory>
    ensures { IfOk result (λ r. r ≡ nodes.kept_node (spec.target_node context.now (folds.access_of context.now access.now))) }
{
    let place = place_node(alloc, context, access)?;
    if access.parts.as_slice().len() < 1 {
        Ok(target_of(alloc, context, place, access.ident.bytes()))
    } else {
        Ok(place)
    }
}

/// An assignment of a value to a place.
pub fn assign_form(
    alloc: Global,
    context: &Context,
    place: KeptNode,
    value: KeptNode,
) -> Result<KeptForm, NoMemory>
    ensures { (x y : nodes.Node) → place ≡ nodes.kept_node x → value ≡ nodes.kept_node y
        → IfOk result (λ f. f ≡ spec.kept_form (spec.assign_form context.now x y)) }
{
    let storage = storage_of(context.env.table.as_slice(), place.typing);
    let parts = two_parts(alloc, place.kept, value.kept)?;
    Ok(form_with(context, StatementOp::Assign(storage), None, parts))
}

/// A statement of one expression.
pub fn value_form(
    alloc: Global,
    context: &Context,
    op: StatementOp,
    value: KeptNode,
) -> Result<KeptForm, NoMemory>
    ensures { (x : nodes.Node) → value ≡ nodes.kept_node x
        → IfOk result (λ f. f ≡ spec.kept_form (spec.value_form context.now op x)) }
{
    let parts = one_part(alloc, value.kept)?;
    Ok(form_with(context, op, None, parts))
}
