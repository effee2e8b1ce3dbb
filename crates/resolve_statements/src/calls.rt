//! Procedure statements (ISO 7185:1990, 6.8.2.3): calls, reading and writing (6.9), and the heap (6.6.5.3).
ghost use Rattle.std.specs.Prelude.{◌≡◌, [], ◌∷◌, map, IfOk, None, Some};
ghost use Rattle.check_rules.specs.Typing as types;
ghost use Rattle.resolve_expr.specs.Kept as kept_spec;
ghost use Rattle.resolve_expr.specs.Nodes as nodes;
ghost use Rattle.resolve_expr.specs.Expressions as folds;
ghost use Rattle.resolve_statements.specs.Forms as spec;
ghost use Rattle.core_tree.specs.declared.form.StatementOp.TheVariants as stmt;

use crate::form::{KeptForm, form_with};
use crate::parts::one_part;
use check_rules::{
    Host, RoutineEntity, Typing, WrittenType, bounds_of, domain_of, host_of, string_length,
    words_of,
};
use core_tree::{EffectOp, Op, StatementOp, Written};
use dice_base::NoMemory;
use pascal_tree::Arg;
use resolve_expr::{
    Context, Kept, KeptNode, KeptParts, appended, arguments, around, both, call_with, domain_type,
    no_parts, node_of, place_in, shape_of,
};
use std::alloc::Global;

/// Which way `read` and `write` go.
#[derive(Clone, Copy, PartialEq, Eq)]
pub enum Transfer {
    Reading,
    Writing,
}

/// What breaks a rule of the check: it has no meaning, and any form stands for it. Takes no memory.
pub fn lost_form(alloc: Global, context: &Context) -> KeptForm
    ensures { result ≡ spec.kept_form (spec.lost_form context.now) }
{
    form_with(context, StatementOp::Empty, None, no_parts(alloc))
}

fn read_op(table: &[WrittenType], typing: Typing) -> EffectOp
    ensures { result ≡ spec.read_op table.now typing }
{
    let (first, last) = bounds_of(table, typing);
    match host_of(table, typing) {
        Some(Host::Char) => EffectOp::ReadChar(first, last),
        _ => EffectOp::ReadInteger(first, last),
    }
}

fn written_in(table: &[WrittenType], typing: Typing) -> Written
    ensures { result ≡ spec.written_in table.now typing }
{
    match (string_length(table, typing), host_of(table, typing)) {
        (Some(length), _) => Written::String(length),
        (None, Some(Host::Char)) => Written::Char,
        (None, Some(Host::Boolean)) => Written::Boolean,
        _ => Written::Integer,
    }
}

fn read_effect(alloc: Global, context: &Context, place: KeptNode) -> Result<Kept, NoMemory>
    ensures { (x : nodes.Node) → place ≡ nodes.kept_node x
        → IfOk result (λ k. k ≡ kept_spec.kept (spec.read_effect context.now.env.table x)) }
{
    let op = Op::Effect(read_op(context.env.table.as_slice(), place.typing));
    around(alloc, op, None, place.kept)
}

fn written_alone(alloc: Global, context: &Context, value: KeptNode) -> Result<Kept, NoMemory>
    ensures { (x : nodes.Node) → value ≡ nodes.kept_node x
        → IfOk result (λ k. k ≡ kept_spec.kept (spec.write_effect context.now.env.table x None)) }
{
    let written = written_in(context.env.table.as_slice(), value.typing);
    let op = Op::Effect(EffectOp::Write(written, false));
    around(alloc, op, None, value.kept)
}

fn written_in_width(
    alloc: Global,
    context: &Context,
    value: KeptNode,
    width: KeptNode,
) -> Result<Kept, NoMemory>
    ensures { (x : nodes.Node) (w : nodes.Resolved) → value ≡ nodes.kept_node x → width ≡ nodes.kept_node w.node
        → IfOk result (λ k. k ≡ kept_spec.kept (spec.write_effect context.now.env.table x (Some w))) }
{
    let written = written_in(context.env.table.as_slice(), value.typing);
    let op = Op::Effect(EffectOp::Write(written, true));
    both(alloc, op, None, value.kept, width.kept)
}

fn write_effect(
    alloc: Global,
    context: &Context,
    value: KeptNode,
    arg: &Arg,
) -> Result<Kept, NoMemory>
    ensures { (x : nodes.Node) → value ≡ nodes.kept_node x
        → IfOk result (λ k. k ≡ kept_spec.kept (spec.write_effect context.now.env.table x (folds.argument_of context.now arg.now).width)) }
{
    match &arg.width {
        None => written_alone(alloc, context, value),
        Some(expr) => {
            let width = node_of(alloc, context, expr)?;
            written_in_width(alloc, context, value, width)
        }
    }
}

fn effect_of(
    alloc: Global,
    context: &Context,
    transfer: Transfer,
    arg: &Arg,
) -> Result<Kept, NoMemory>
    ensures { IfOk result (λ k. k ≡ kept_spec.kept (spec.effect_of context.now.env.table transfer (folds.argument_of context.now arg.now))) }
{
    match transfer {
        Transfer::Reading => {
            let place = place_in(alloc, context, &arg.value)?;
            read_effect(alloc, context, place)
        }
        Transfer::Writing => {
            let value = node_of(alloc, context, &arg.value)?;
            write_effect(alloc, context, value, arg)
        }
    }
}

fn effects(
    alloc: Global,
    context: &Context,
    transfer: Transfer,
    args: &[Arg],
) -> Result<KeptParts, NoMemory>
    ensures { IfOk result (λ ps. ps ≡ kept_spec.kept_parts (map (spec.effect_of context.now.env.table transfer) (map (folds.argument_of context.now) args.now))) }
{
    let mut parts = no_parts(alloc);
    for arg in args {
        let part = effect_of(alloc, context, transfer, arg)?;
        parts = appended(parts, part)?;
    }
    Ok(parts)
}

fn transfer_op(transfer: Transfer, line: bool) -> StatementOp
    ensures { result ≡ spec.transfer_op transfer line }
{
    match transfer {
        Transfer::Reading => StatementOp::Read(line),
        Transfer::Writing => StatementOp::Write(line),
    }
}

/// `read` or `write` of these arguments, the file left out; whether it goes past the end of the line.
pub fn transfer_form(
    alloc: Global,
    context: &Context,
    transfer: Transfer,
    line: bool,
    args: &[Arg],
) -> Result<KeptForm, NoMemory>
    ensures { IfOk result (λ f. f ≡ spec.kept_form (spec.transfer_form context.now transfer line (map (folds.argument_of context.now) args.now))) }
{
    let parts = effects(alloc, context, transfer, args)?;
    Ok(form_with(context, transfer_op(transfer, line), None, parts))
}

fn heap_op(new: bool, words: u32) -> StatementOp
    ensures { result ≡ spec.heap_op new words }
{
    if new {
        StatementOp::New(words)
    } else {
        StatementOp::Dispose(words)
    }
}

fn heap_form(
    alloc: Global,
    context: &Context,
    new: bool,
    pointer: KeptNode,
) -> Result<KeptForm, NoMemory>
    ensures { (x : nodes.Node) → pointer ≡ nodes.kept_node x
        → IfOk result (λ f. f ≡ spec.kept_form (spec.heap_form context.now new x)) }
{
    let table = context.env.table.as_slice();
    match domain_of(table, pointer.typing) {
        None => Ok(lost_form(alloc, context)),
        Some(domain) => {
            let typing = domain_type(context.env.domains.as_slice(), domain);
            let parts = one_part(alloc, pointer.kept)?;
            let op = heap_op(new, words_of(table, typing));
            Ok(form_with(context, op, shape_of(typing), parts))
        }
    }
}

/// `new` (ISO 7185:1990, 6.6.5.3).
pub fn new_form(alloc: Global, context: &Context, args: &[Arg]) -> Result<KeptForm, NoMemory>
    ensures { IfOk result (λ f. f ≡ spec.kept_form (spec.new_form context.now (map (folds.argument_of context.now) args.now))) }
{
    let [first, ..] = args else {
        return Ok(lost_form(alloc, context));
    };
    let place = place_in(alloc, context, &first.value)?;
    heap_form(alloc, context, true, place)
}

/// `dispose` (ISO 7185:1990, 6.6.5.3).
pub fn dispose_form(alloc: Global, context: &Context, args: &[Arg]) -> Result<KeptForm, NoMemory>
    ensures { IfOk result (λ f. f ≡ spec.kept_form (spec.dispose_form context.now (map (folds.argument_of context.now) args.now))) }
{
    let [first, ..] = args else {
        return Ok(lost_form(alloc, context));
    };
    let value = node_of(alloc, context, &first.value)?;
    heap_form(alloc, context, false, value)
}

/// The call of a procedure.
pub fn routine_form(
    alloc: Global,
    context: &Context,
    routine: &RoutineEntity,
    args: &[Arg],
) -> Result<KeptForm, NoMemory>
    ensures { IfOk result (λ f. f ≡ spec.kept_form (spec.routine_form context.now routine.now (map (folds.argument_of context.now) args.now))) }
{
    let found = arguments(alloc, context, routine.parameters.as_slice(), args)?;
    let parts = one_part(alloc, call_with(context, routine, found))?;
    Ok(form_with(context, StatementOp::Call, None, parts))
}
