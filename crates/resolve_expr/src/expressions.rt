//! Expressions and accesses, resolved (ISO 7185:1990, 6.5 and 6.7). Chains of operators and of parts are loops: they may be
//! thousands long, while the tree is at most as deep as a program.
ghost use Rattle.std.specs.Prelude.{◌≡◌, List, map, IfOk};
ghost use Rattle.core_tree.specs.declared.op.CoreExpr.{CoreExpr};
ghost use Rattle.expression_rules.specs.Accesses as accesses;
ghost use Rattle.resolve_expr.specs.Kept as kept_spec;
ghost use Rattle.resolve_expr.specs.Nodes as spec;
ghost use Rattle.resolve_expr.specs.Expressions as folds;

use crate::context::{Context, Kept, KeptCollected, KeptNode, KeptParts};
use crate::kept::{no_parts, with_part};
use crate::operators::{compared, negation, product_with, signed, sum_with};
use crate::places::{component_node, domain_node, field_node, first_node, loaded, lost};
use crate::sets::{no_members, set_of_members, with_first, with_range};
use crate::values::{
    alone_node, call_with, nil_node, number_node, place_argument, standard_alone, standard_with,
    string_node, value_argument,
};
use check_rules::{Entity, Parameter, Standard};
use dice_base::NoMemory;
use expression_rules::{declared_entity, opened_field};
use pascal_tree::{
    Access, AccessPart, AddPart, Arg, Expr, Factor, MulPart, Prefix, SetMember, SumExpr, Term,
};
use std::alloc::Global;

#[cycle(node_of)]
#[tactic(auto, using(crate::proofs::Chains::components_snoc))]
fn components_node(
    alloc: Global,
    context: &Context,
    place: KeptNode,
    exprs: &[Expr],
) -> Result<KeptNode, NoMemory>
    ensures { (x : spec.Node) → place ≡ spec.kept_node x
        → IfOk result (λ r. r ≡ spec.kept_node (spec.components_node context.now.env.table x (map (folds.value_of context.now) exprs.now))) }
{
    let table = context.env.table.as_slice();
    let mut at = place;
    for expr in exprs {
        let value = node_of(alloc, context, expr)?;
        at = component_node(alloc, table, at, value)?;
    }
    Ok(at)
}

#[cycle(node_of)]
#[tactic(auto, unfolding(crate::specs::Expressions::part_of, crate::specs::Expressions::value_of))]
fn part_node(
    alloc: Global,
    context: &Context,
    place: KeptNode,
    part: &AccessPart,
) -> Result<KeptNode, NoMemory>
    ensures { (x : spec.Node) → place ≡ spec.kept_node x
        → IfOk result (λ r. r ≡ spec.kept_node (folds.part_of context.now part.now x)) }
{
    match part {
        AccessPart::Index(exprs) => components_node(alloc, context, place, exprs.as_slice()),
        AccessPart::Field(ident) => {
            field_node(alloc, context.env.table.as_slice(), place, ident.bytes())
        }
        AccessPart::Dereference => domain_node(alloc, &context.env, place),
    }
}

#[cycle(node_of)]
#[tactic(auto, using(crate::proofs::Chains::steps_snoc))]
fn node_after(
    alloc: Global,
    context: &Context,
    place: KeptNode,
    parts: &[AccessPart],
) -> Result<KeptNode, NoMemory>
    ensures { (x : spec.Node) → place ≡ spec.kept_node x
        → IfOk result (λ r. r ≡ spec.kept_node (spec.node_after x (map (folds.part_of context.now) parts.now))) }
{
    let mut at = place;
    for part in parts {
        at = part_node(alloc, context, at, part)?;
    }
    Ok(at)
}

/// The place to which an access leads.
#[cycle(node_of)]
#[tactic(auto, unfolding(crate::specs::Expressions::access_of, crate::specs::Expressions::part_of))]
pub fn place_node(alloc: Global, context: &Context, access: &Access) -> Result<KeptNode, NoMemory>
    ensures { IfOk result (λ r. r ≡ spec.kept_node (folds.access_of context.now access.now).place) }
{
    let first = first_node(alloc, context, access.ident.bytes());
    node_after(alloc, context, first, access.parts.as_slice())
}

#[cycle(node_of)]
#[tactic(auto, unfolding(crate::specs::Expressions::access_of, crate::specs::Expressions::part_of))]
fn access_node(alloc: Global, context: &Context, access: &Access) -> Result<KeptNode, NoMemory>
    ensures { IfOk result (λ r. r ≡ spec.kept_node (spec.entity_node context.now (folds.access_of context.now access.now))) }
{
    let parts = access.parts.as_slice();
    if parts.len() < 1 {
        return alone_node(alloc, context, access.ident.bytes());
    }
    let place = place_node(alloc, context, access)?;
    loaded(alloc, context.env.table.as_slice(), place)
}

// The place of a factor that is an access.
#[cycle(node_of)]
#[tactic(auto, unfolding(crate::specs::Expressions::factor_of, crate::specs::Expressions::access_of))]
fn factor_place(alloc: Global, context: &Context, factor: &Factor) -> Result<KeptNode, NoMemory>
    ensures { IfOk result (λ r. r ≡ spec.kept_node (spec.place_or_lost (folds.factor_of context.now factor.now).access)) }
{
    match factor {
        Factor::Access(access) => place_node(alloc, context, access),
        _ => Ok(lost(alloc)),
    }
}

/// The place of an expression that is one access and nothing more; of others none stands.
#[cycle(node_of)]
#[tactic(auto, using(crate::proofs::Sole::expr_sole))]
pub fn place_in(alloc: Global, context: &Context, expr: &Expr) -> Result<KeptNode, NoMemory>
    ensures { IfOk result (λ r. r ≡ spec.kept_node (spec.place_or_lost (folds.value_of context.now expr.now).access)) }
{
    let None = &expr.rest else {
        return Ok(lost(alloc));
    };
    let [] = expr.first.rest.as_slice() else {
        return Ok(lost(alloc));
    };
    let [] = expr.first.first.rest.as_slice() else {
        return Ok(lost(alloc));
    };
    let Prefix::Without = expr.first.prefix else {
        return Ok(lost(alloc));
    };
    factor_place(alloc, context, &expr.first.first.first)
}

#[cycle(node_of)]
#[tactic(auto, using(crate::proofs::Ranks::argument_is))]
fn argument(
    alloc: Global,
    context: &Context,
    parameter: &Parameter,
    arg: &Arg,
) -> Result<Kept, NoMemory>
    ensures { IfOk result (λ k. k ≡ kept_spec.kept (spec.argument_for context.now.env.table parameter.now (folds.argument_of context.now arg.now))) }
{
    if parameter.by_place {
        let place = place_in(alloc, context, &arg.value)?;
        place_argument(alloc, place)
    } else {
        let value = node_of(alloc, context, &arg.value)?;
        value_argument(alloc, context.env.table.as_slice(), parameter.typing, value)
    }
}

/// The arguments of a call, each for its parameter, as far as both go.
#[cycle(node_of)]
#[tactic(auto, using(crate::proofs::Chains::all_parts))]
pub fn arguments(
    alloc: Global,
    context: &Context,
    parameters: &[Parameter],
    args: &[Arg],
) -> Result<KeptParts, NoMemory>
    ensures { IfOk result (λ ps. ps ≡ kept_spec.kept_parts (spec.arguments_for context.now.env.table parameters.now (map (folds.argument_of context.now) args.now))) }
{
    let mut parts = no_parts(alloc);
    let mut left = parameters;
    for arg in args {
        let [parameter, others @ ..] = left else {
            return Ok(parts);
        };
        let part = argument(alloc, context, parameter, arg)?;
        parts = with_part(parts, part)?;
        left = others;
    }
    Ok(parts)
}

#[cycle(node_of)]
#[tactic(auto, using(crate::proofs::Ranks::argument_is))]
fn standard_node(
    alloc: Global,
    context: &Context,
    function: Standard,
    args: &[Arg],
) -> Result<KeptNode, NoMemory>
    ensures { IfOk result (λ r. r ≡ spec.kept_node (spec.standard_node context.now.env.table function (map (folds.argument_of context.now) args.now))) }
{
    let [first, ..] = args else {
        return Ok(standard_alone(alloc, function));
    };
    let operand = node_of(alloc, context, &first.value)?;
    standard_with(alloc, context.env.table.as_slice(), function, operand)
}

// A function with its arguments.
#[cycle(node_of)]
fn function_node(
    alloc: Global,
    context: &Context,
    ident: &[u8],
    args: &[Arg],
) -> Result<KeptNode, NoMemory>
    ensures { IfOk result (λ r. r ≡ spec.kept_node (spec.function_node context.now (map (folds.argument_of context.now) args.now) (accesses.entity_at context.now.env ident.now))) }
{
    if opened_field(&context.env, ident).is_some() {
        return Ok(lost(alloc));
    }
    match declared_entity(&context.env, ident) {
        Some(Entity::RoutineOf(routine)) => {
            let parts = arguments(alloc, context, routine.parameters.as_slice(), args)?;
            Ok(KeptNode {
                typing: routine.result,
                kept: call_with(context, routine, parts),
            })
        }
        Some(Entity::StandardOf(function)) => standard_node(alloc, context, *function, args),
        _ => Ok(lost(alloc)),
    }
}

#[cycle(node_of)]
#[tactic(auto, using(crate::proofs::Ranks::member_is))]
fn with_member(
    alloc: Global,
    context: &Context,
    collected: KeptCollected,
    member: &SetMember,
) -> Result<KeptCollected, NoMemory>
    ensures { (x : spec.Collected) → collected ≡ spec.kept_collected x
        → IfOk result (λ r. r ≡ spec.kept_collected (spec.with_member context.now.env.table x (folds.member_of context.now member.now))) }
{
    let table = context.env.table.as_slice();
    let first = node_of(alloc, context, &member.first)?;
    match &member.last {
        None => with_first(alloc, table, collected, first),
        Some(expr) => {
            let last = node_of(alloc, context, expr)?;
            with_range(alloc, table, collected, first, last)
        }
    }
}

#[cycle(node_of)]
#[tactic(auto, using(crate::proofs::Chains::members_snoc))]
fn set_node(alloc: Global, context: &Context, members: &[SetMember]) -> Result<KeptNode, NoMemory>
    ensures { IfOk result (λ r. r ≡ spec.kept_node (spec.set_node context.now.env.table (map (folds.member_of context.now) members.now))) }
{
    let mut collected = no_members(alloc);
    for member in members {
        collected = with_member(alloc, context, collected, member)?;
    }
    Ok(set_of_members(members.is_empty(), collected))
}

#[cycle(node_of)]
#[tactic(auto, unfolding(crate::specs::Expressions::factor_of, crate::specs::Expressions::access_of, crate::specs::Expressions::argument_of, crate::specs::Expressions::member_of, crate::specs::Expressions::value_of))]
fn factor_node(alloc: Global, context: &Context, factor: &Factor) -> Result<KeptNode, NoMemory>
    ensures { IfOk result (λ r. r ≡ spec.kept_node (folds.factor_of context.now factor.now).node) }
{
    match factor {
        Factor::Number(number) => Ok(number_node(alloc, *number)),
        Factor::Str(text) => string_node(alloc, text),
        Factor::Nil => Ok(nil_node(alloc)),
        Factor::Access(access) => access_node(alloc, context, access),
        Factor::Call(ident, args) => {
            function_node(alloc, context, ident.bytes(), args.as_slice())
        }
        Factor::Members(members) => set_node(alloc, context, members.as_slice()),
        Factor::Paren(expr) => node_of(alloc, context, expr.get()),
        Factor::Not(inner) => {
            let operand = factor_node(alloc, context, inner.get())?;
            negation(alloc, operand)
        }
    }
}

#[cycle(node_of)]
fn multiplied(
    alloc: Global,
    context: &Context,
    first: KeptNode,
    parts: &[MulPart],
) -> Result<KeptNode, NoMemory>
    ensures { (x : spec.Node) → first ≡ spec.kept_node x
        → IfOk result (λ r. r ≡ spec.kept_node (spec.product_of_all context.now.env.table x (map (folds.multiplying_of context.now) parts.now))) }
{
    let table = context.env.table.as_slice();
    let mut so_far = first;
    for part in parts {
        let right = factor_node(alloc, context, &part.right)?;
        so_far = product_with(alloc, table, so_far, part.op, right)?;
    }
    Ok(so_far)
}

#[cycle(node_of)]
#[tactic(auto, using(crate::proofs::Ranks::term_is))]
fn term_node(alloc: Global, context: &Context, term: &Term) -> Result<KeptNode, NoMemory>
    ensures { IfOk result (λ r. r ≡ spec.kept_node (folds.term_of context.now term.now).node) }
{
    let first = factor_node(alloc, context, &term.first)?;
    multiplied(alloc, context, first, term.rest.as_slice())
}

#[cycle(node_of)]
fn added(
    alloc: Global,
    context: &Context,
    first: KeptNode,
    parts: &[AddPart],
) -> Result<KeptNode, NoMemory>
    ensures { (x : spec.Node) → first ≡ spec.kept_node x
        → IfOk result (λ r. r ≡ spec.kept_node (spec.sum_of_all context.now.env.table x (map (folds.adding_of context.now) parts.now))) }
{
    let table = context.env.table.as_slice();
    let mut so_far = first;
    for part in parts {
        let right = term_node(alloc, context, &part.right)?;
        so_far = sum_with(alloc, table, so_far, part.op, right)?;
    }
    Ok(so_far)
}

#[cycle(node_of)]
#[tactic(auto, using(crate::proofs::Ranks::sum_is))]
fn sum_node(alloc: Global, context: &Context, sum: &SumExpr) -> Result<KeptNode, NoMemory>
    ensures { IfOk result (λ r. r ≡ spec.kept_node (folds.sum_of context.now sum.now).node) }
{
    let first = term_node(alloc, context, &sum.first)?;
    let first = signed(alloc, sum.prefix, first)?;
    added(alloc, context, first, sum.rest.as_slice())
}

/// An expression, resolved.
#[cycle(node_of)]
#[tactic(auto, unfolding(crate::specs::Expressions::value_of, crate::specs::Expressions::sum_of, crate::specs::Expressions::relation_of))]
pub fn node_of(alloc: Global, context: &Context, expr: &Expr) -> Result<KeptNode, NoMemory>
    ensures { IfOk result (λ r. r ≡ spec.kept_node (folds.node_of context.now expr.now)) }
{
    let first = sum_node(alloc, context, &expr.first)?;
    match &expr.rest {
        None => Ok(first),
        Some(part) => {
            let right = sum_node(alloc, context, &part.right)?;
            compared(alloc, context.env.table.as_slice(), part.op, first, right)
        }
    }
}
