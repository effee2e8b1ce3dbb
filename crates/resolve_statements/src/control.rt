//! `case`, `for` and `with` (ISO 7185:1990, 6.8.3.5, 6.8.3.9 and 6.8.3.10).
ghost use Rattle.std.specs.Prelude.{◌≡◌, ◌+◌, ◌++◌, List, map, IfOk, OnOk};
ghost use Rattle.check_rules.specs.Typing as types;
ghost use Rattle.check_types.specs.Constants as constants;
ghost use Rattle.expression_rules.specs.Accesses as accesses;
ghost use Rattle.resolve_expr.specs.Kept as kept_spec;
ghost use Rattle.resolve_expr.specs.Nodes as nodes;
ghost use Rattle.resolve_expr.specs.Expressions as folds;
ghost use Rattle.resolve_statements.specs.Forms as spec;
ghost use Rattle.resolve_statements.specs.Statements as statements;

use crate::form::{KeptForm, form_with};
use crate::parts::two_parts;
use check_rules::{
    Entity, JudgedConstant, Typing, Variable, WRONG_CLASS, WrittenType, bounds_of, faulty_constant,
    string_constant, words_of,
};
use check_types::{integer_constant, named_constant, number_in, signed_number};
use core_tree::{
    CaseLabel, EffectOp, ForLoop, Op, Scope, Shape, StatementOp, Variable as PlaceVariable,
};
use dice_base::NoMemory;
use expression_rules::{Env, OpenedRecord, declared_entity, opened_field};
use pascal_tree::{Access, Arm, Constant};
use resolve_expr::{
    Context, Kept, KeptNode, KeptParts, appended, around, no_parts, place_node, place_of, shape_of,
};
use sqlite_items::Items;
use std::alloc::Global;

fn constant_in(alloc: Global, env: &Env, constant: &Constant) -> Result<JudgedConstant, NoMemory>
    ensures { IfOk result (λ c. c ≡ constants.constant_from env.now.table (accesses.entity_at env.now) constant.now) }
{
    match constant {
        Constant::Number(prefix, number) => {
            Ok(integer_constant(signed_number(*prefix, i32::from(*number))))
        }
        Constant::Str(text) => string_constant(alloc, text),
        Constant::Named(prefix, ident) => {
            if opened_field(env, ident.bytes()).is_some() {
                return Ok(faulty_constant(WRONG_CLASS));
            }
            let entity = declared_entity(env, ident.bytes());
            named_constant(alloc, env.table.as_slice(), *prefix, entity)
        }
    }
}

fn case_label(
    alloc: Global,
    env: &Env,
    arm: u32,
    constant: &Constant,
) -> Result<CaseLabel, NoMemory>
    ensures { IfOk result (λ l. l ≡ spec.case_label env.now arm constant.now) }
{
    let judged = constant_in(alloc, env, constant)?;
    Ok(CaseLabel {
        value: number_in(&judged.value),
        arm,
    })
}

fn push_arm_labels(
    alloc: Global,
    env: &Env,
    arm: u32,
    constants: &[Constant],
    out: &mut Items<CaseLabel>,
) -> Result<(), NoMemory>
    ensures { OnOk result (out.new ≡ out.old ++ map (spec.case_label env.now arm) constants.now) }
{
    for constant in constants {
        let label = case_label(alloc, env, arm, constant)?;
        out.push(label)?;
    }
    Ok(())
}

/// The constants of a `case`, each with the number of its arm.
pub fn case_labels(alloc: Global, env: &Env, arms: &[Arm]) -> Result<Items<CaseLabel>, NoMemory>
    ensures { IfOk result (λ ls. ls ≡ spec.case_labels env.now 0 (map statements.arm_constants arms.now)) }
{
    let mut labels = Items::new(alloc);
    let mut number: u32 = 0;
    for arm in arms {
        push_arm_labels(alloc, env, number, arm.constants.as_slice(), &mut labels)?;
        if number == u32::MAX {
            return Err(NoMemory);
        }
        number += 1;
    }
    Ok(labels)
}

fn loop_over(table: &[WrittenType], context: &Context, variable: Variable, down: bool) -> ForLoop
    ensures { result ≡ spec.loop_over context.now variable down (types.bounds_of table.now variable.typing) }
{
    let (first, last) = bounds_of(table, variable.typing);
    ForLoop {
        variable: place_of(context, variable.owner, variable.offset, variable.by_place),
        first,
        last,
        down,
    }
}

fn lost_loop(down: bool) -> ForLoop
    ensures { result ≡ spec.lost_loop down }
{
    let variable = PlaceVariable {
        scope: Scope::Program,
        offset: 0,
        by_place: false,
        frame_words: 0,
    };
    ForLoop {
        variable,
        first: 0,
        last: 0,
        down,
    }
}

fn for_form_with(
    alloc: Global,
    context: &Context,
    looping: ForLoop,
    shape: Option<Shape>,
    first: KeptNode,
    last: KeptNode,
) -> Result<KeptForm, NoMemory>
    ensures { (x y : nodes.Node) → first ≡ nodes.kept_node x → last ≡ nodes.kept_node y
        → IfOk result (λ f. f ≡ spec.kept_form (spec.for_form_with context.now looping shape x y)) }
{
    let parts = two_parts(alloc, first.kept, last.kept)?;
    Ok(form_with(context, StatementOp::For(looping), shape, parts))
}

// Also where it has no variable, which the check of the statement refuses.
fn loop_and_shape(context: &Context, ident: &[u8], down: bool) -> (ForLoop, Option<Shape>)
    ensures { (x y : nodes.Node) → spec.for_form_with context.now result.0 result.1 x y ≡ spec.for_form context.now ident.now down x y }
{
    if opened_field(&context.env, ident).is_some() {
        return (lost_loop(down), None);
    }
    match declared_entity(&context.env, ident) {
        Some(Entity::VariableOf(variable)) => {
            let looping = loop_over(context.env.table.as_slice(), context, *variable, down);
            (looping, shape_of(variable.typing))
        }
        _ => (lost_loop(down), None),
    }
}

/// A `for` with this control variable between these bounds.
pub fn for_form(
    alloc: Global,
    context: &Context,
    ident: &[u8],
    down: bool,
    first: KeptNode,
    last: KeptNode,
) -> Result<KeptForm, NoMemory>
    ensures { (x y : nodes.Node) → first ≡ nodes.kept_node x → last ≡ nodes.kept_node y
        → IfOk result (λ f. f ≡ spec.kept_form (spec.for_form context.now ident.now down x y)) }
{
    let (looping, shape) = loop_and_shape(context, ident, down);
    for_form_with(alloc, context, looping, shape, first, last)
}

fn hold_effect(
    alloc: Global,
    context: &Context,
    hold: u32,
    place: KeptNode,
) -> Result<Kept, NoMemory>
    ensures { (x : nodes.Node) → place ≡ nodes.kept_node x → hold ≡ context.now.env.holds + 1
        → IfOk result (λ k. k ≡ kept_spec.kept (spec.hold_effect context.now x)) }
{
    let words = words_of(context.env.table.as_slice(), place.typing);
    around(
        alloc,
        Op::Effect(EffectOp::Hold(hold, words)),
        None,
        place.kept,
    )
}

/// Opens a record of this type: its fields hide what is declared around the statements in it.
pub fn open_record(context: &mut Context, typing: Typing, hold: u32) -> Result<(), NoMemory>
    ensures { hold ≡ context.old.env.holds + 1 → OnOk result (context.new ≡ spec.context_opening context.old typing) }
{
    context.env.opened.push(OpenedRecord { typing, hold })?;
    context.env.holds = hold;
    Ok(())
}

fn opened_effect(alloc: Global, context: &mut Context, access: &Access) -> Result<Kept, NoMemory>
    ensures value { IfOk result (λ k. k ≡ kept_spec.kept (spec.hold_effect context.old (statements.access_node access.now context.old))) }
    ensures opened { OnOk result (context.new ≡ spec.context_opening context.old (statements.access_node access.now context.old).typing) }
{
    let place = place_node(alloc, context, access)?;
    let typing = place.typing;
    let hold = context.env.holds.checked_add(1).ok_or(NoMemory)?;
    let effect = hold_effect(alloc, context, hold, place)?;
    open_record(context, typing, hold)?;
    Ok(effect)
}

/// The effects of opening records, each of which stands behind those before it. They stay open.
pub fn hold_effects(
    alloc: Global,
    context: &mut Context,
    records: &[Access],
) -> Result<KeptParts, NoMemory>
    ensures value { IfOk result (λ ps. ps ≡ kept_spec.kept_parts (spec.hold_effects context.old (map statements.access_node records.now))) }
    ensures opened { OnOk result (context.new ≡ spec.context_with context.old (map statements.access_node records.now)) }
{
    let mut parts = no_parts(alloc);
    for access in records {
        let part = opened_effect(alloc, context, access)?;
        parts = appended(parts, part)?;
    }
    Ok(parts)
}
