//! Values that need no other expression: constants, and functions by their operands (ISO 7185:1990, 6.3, 6.6.6 and 6.7).
ghost use Rattle.std.specs.Prelude.{◌≡◌, [], IfOk, List, Some, None};
ghost use Rattle.std.specs.Option.{option_copied};
ghost use Rattle.expression_rules.specs.Accesses as accesses;
ghost use Rattle.expression_rules.specs.Values as values;
ghost use Rattle.check_rules.specs.Strings as strings;
ghost use Rattle.check_rules.specs.Typing as types;
ghost use Rattle.core_tree.specs.declared.op.CoreExpr.{CoreExpr};
ghost use Rattle.core_tree.specs.declared.op.Op.TheVariants as Op;
ghost use Rattle.resolve_expr.specs.Kept as kept_spec;
ghost use Rattle.resolve_expr.specs.Nodes as spec;

use crate::context::{Context, Kept, KeptNode, KeptParts};
use crate::kept::{applied, around, leaf, no_parts};
use crate::places::{held_node, loaded, lost, scope_from, variable_node};
use crate::types::{shape_of, storage_of};
use check_rules::{
    Constant, Entity, Host, RoutineEntity, Standard, Typing, WrittenType, bounds_of, host_of,
    string_constant,
};
use core_tree::{Callee, Op, Shape, WordOp};
use dice_base::{NoMemory, Text};
use expression_rules::{declared_entity, opened_field};
use std::alloc::Global;

/// A number of the text (ISO 7185:1990, 6.1.5). Takes no memory.
pub fn number_node(alloc: Global, number: u16) -> KeptNode
    ensures { result ≡ spec.kept_node (spec.number_node number) }
{
    let op = Op::Word(WordOp::Constant(i32::from(number)));
    KeptNode {
        typing: Typing::Ordinal(Host::Integer),
        kept: leaf(alloc, op, Some(Shape::Integer)),
    }
}

/// `nil` (ISO 7185:1990, 6.4.4). Takes no memory.
pub fn nil_node(alloc: Global) -> KeptNode
    ensures { result ≡ spec.kept_node spec.nil_node }
{
    KeptNode {
        typing: Typing::Nil,
        kept: leaf(alloc, Op::Word(WordOp::Nil), None),
    }
}

/// A constant (ISO 7185:1990, 6.3).
pub fn constant_node(
    alloc: Global,
    typing: Typing,
    constant: &Constant,
) -> Result<KeptNode, NoMemory>
    ensures { IfOk result (λ r. r ≡ spec.kept_node (spec.constant_node typing constant.now)) }
{
    match constant {
        Constant::Number(value) => Ok(KeptNode {
            typing,
            kept: leaf(alloc, Op::Word(WordOp::Constant(*value)), shape_of(typing)),
        }),
        Constant::Chars(text) => {
            let chars = text.copy(alloc)?;
            Ok(KeptNode {
                typing,
                kept: leaf(alloc, Op::Literal(chars), None),
            })
        }
    }
}

/// A string of the text: a character, or a string of more (ISO 7185:1990, 6.1.7).
pub fn string_node(alloc: Global, text: &Text) -> Result<KeptNode, NoMemory>
    ensures { IfOk result (λ r. r ≡ spec.kept_node (spec.judged_node (strings.string_constant text.now))) }
{
    let constant = string_constant(alloc, text)?;
    constant_node(alloc, constant.typing, &constant.value)
}

fn callee_of(context: &Context, routine: &RoutineEntity) -> Callee
    ensures { result ≡ spec.callee_of context.now routine.now }
{
    Callee {
        routine: routine.name,
        scope: scope_from(context.level, routine.level.saturating_sub(1)),
        function: routine.function,
    }
}

/// The call of a routine with these arguments. Takes no memory.
#[tactic(auto, using(crate::proofs::Keeping::kept_applied))]
pub fn call_with(context: &Context, routine: &RoutineEntity, arguments: KeptParts) -> Kept
    ensures { (es : List CoreExpr) → arguments ≡ kept_spec.kept_parts es
        → result ≡ kept_spec.kept (kept_spec.operation (Op.Call (spec.callee_of context.now routine.now)) None es) }
{
    applied(Op::Call(callee_of(context, routine)), None, arguments)
}

/// A value parameter's argument.
pub fn value_argument(
    alloc: Global,
    table: &[WrittenType],
    typing: Typing,
    value: KeptNode,
) -> Result<Kept, NoMemory>
    ensures { (x : spec.Node) → value ≡ spec.kept_node x
        → IfOk result (λ k. k ≡ kept_spec.kept (spec.value_argument table.now typing x)) }
{
    around(
        alloc,
        Op::Argument(storage_of(table, typing)),
        None,
        value.kept,
    )
}

/// A variable parameter's argument.
pub fn place_argument(alloc: Global, place: KeptNode) -> Result<Kept, NoMemory>
    ensures { (x : spec.Node) → place ≡ spec.kept_node x
        → IfOk result (λ k. k ≡ kept_spec.kept (spec.place_argument x)) }
{
    around(alloc, Op::ActualVariable, None, place.kept)
}

fn succ_word(table: &[WrittenType], typing: Typing) -> WordOp
    ensures { result ≡ spec.succ_word (types.bounds_of table.now typing) }
{
    let (first, last) = bounds_of(table, typing);
    WordOp::Succ(first, last)
}

fn pred_word(table: &[WrittenType], typing: Typing) -> WordOp
    ensures { result ≡ spec.pred_word (types.bounds_of table.now typing) }
{
    let (first, last) = bounds_of(table, typing);
    WordOp::Pred(first, last)
}

fn standard_word(table: &[WrittenType], function: Standard, typing: Typing) -> WordOp
    ensures { result ≡ spec.standard_word table.now function typing }
{
    match function {
        Standard::Abs => WordOp::Abs,
        Standard::Sqr => WordOp::Sqr,
        Standard::Odd => WordOp::Odd,
        Standard::Ord => WordOp::Ord,
        Standard::Chr => WordOp::Chr,
        Standard::Succ => succ_word(table, typing),
        Standard::Pred => pred_word(table, typing),
        _ => WordOp::Nil,
    }
}

fn host_or_unknown(host: Option<Host>) -> Typing
    ensures { result ≡ accesses.host_or_unknown host }
{
    match host {
        Some(known) => Typing::Ordinal(known),
        None => Typing::Unknown,
    }
}

fn result_of(table: &[WrittenType], function: Standard, typing: Typing) -> Typing
    ensures { result ≡ accesses.result_of table.now function typing }
{
    match function {
        Standard::Abs | Standard::Sqr | Standard::Ord => Typing::Ordinal(Host::Integer),
        Standard::Odd => Typing::Ordinal(Host::Boolean),
        Standard::Chr => Typing::Ordinal(Host::Char),
        _ => host_or_unknown(host_of(table, typing)),
    }
}

fn standard_of(
    alloc: Global,
    table: &[WrittenType],
    function: Standard,
    operand: KeptNode,
) -> Result<KeptNode, NoMemory>
    ensures { (x : spec.Node) → operand ≡ spec.kept_node x
        → IfOk result (λ r. r ≡ spec.kept_node (spec.standard_of table.now function x)) }
{
    let typing = result_of(table, function, operand.typing);
    let op = Op::Word(standard_word(table, function, typing));
    let kept = around(alloc, op, None, operand.kept)?;
    Ok(KeptNode { typing, kept })
}

// `eof` or `eoln`, which ask about `input`.
fn input_node(alloc: Global, word: WordOp) -> KeptNode
    ensures { result ≡ spec.kept_node (spec.node values.boolean_type (spec.leaf (Op.Word word) None)) }
{
    KeptNode {
        typing: Typing::Ordinal(Host::Boolean),
        kept: leaf(alloc, Op::Word(word), None),
    }
}

/// A predeclared function without arguments (ISO 7185:1990, 6.6.6.5). Takes no memory.
pub fn standard_alone(alloc: Global, function: Standard) -> KeptNode
    ensures { result ≡ spec.kept_node (spec.standard_node_of function None) }
{
    match function {
        Standard::Eof => input_node(alloc, WordOp::Eof),
        Standard::Eoln => input_node(alloc, WordOp::Eoln),
        _ => lost(alloc),
    }
}

/// A predeclared function with an operand (ISO 7185:1990, 6.6.6.2 to 6.6.6.5).
pub fn standard_with(
    alloc: Global,
    table: &[WrittenType],
    function: Standard,
    operand: KeptNode,
) -> Result<KeptNode, NoMemory>
    ensures { (x : spec.Node) → operand ≡ spec.kept_node x
        → IfOk result (λ r. r ≡ spec.kept_node (spec.standard_node_of function (Some (spec.standard_of table.now function x)))) }
{
    match function {
        Standard::Eof => Ok(input_node(alloc, WordOp::Eof)),
        Standard::Eoln => Ok(input_node(alloc, WordOp::Eoln)),
        _ => standard_of(alloc, table, function, operand),
    }
}

#[tactic(auto, using(crate::proofs::Chains::no_arguments))]
fn call_alone(alloc: Global, context: &Context, routine: &RoutineEntity) -> KeptNode
    ensures { result ≡ spec.kept_node (spec.call_node context.now routine.now []) }
{
    KeptNode {
        typing: routine.result,
        kept: call_with(context, routine, no_parts(alloc)),
    }
}

/// An identifier alone: a constant, a function without arguments, or the value of a variable.
pub fn alone_node(alloc: Global, context: &Context, ident: &[u8]) -> Result<KeptNode, NoMemory>
    ensures { IfOk result (λ r. r ≡ spec.kept_node (spec.alone_node context.now (accesses.entity_at context.now.env ident.now))) }
{
    let table = context.env.table.as_slice();
    if let Some(field) = opened_field(&context.env, ident) {
        return loaded(alloc, table, held_node(alloc, field));
    }
    declared_node(alloc, context, declared_entity(&context.env, ident))
}

fn declared_node(
    alloc: Global,
    context: &Context,
    entity: Option<&Entity>,
) -> Result<KeptNode, NoMemory>
    ensures { IfOk result (λ r. r ≡ spec.kept_node (spec.alone_node context.now (option_copied entity.entry))) }
{
    let table = context.env.table.as_slice();
    match entity {
        Some(Entity::ConstantOf(value, typing)) => constant_node(alloc, *typing, value),
        Some(Entity::RoutineOf(routine)) => Ok(call_alone(alloc, context, routine)),
        Some(Entity::StandardOf(function)) => Ok(standard_alone(alloc, *function)),
        Some(Entity::VariableOf(variable)) => {
            loaded(alloc, table, variable_node(alloc, context, *variable))
        }
        Some(Entity::FieldOf(field)) => loaded(alloc, table, held_node(alloc, *field)),
        _ => loaded(alloc, table, lost(alloc)),
    }
}
