//! Expressions and accesses, judged (ISO 7185:1990, 6.5 and 6.7). Chains of operators, of parts and of arguments are
//! loops: they may be thousands long, while the tree is at most as deep as a program.
ghost use Rattle.std.specs.Prelude.{◌≡◌, map, drop, IfOk, Some};
ghost use Rattle.expression_rules.specs.Accesses as accesses;
ghost use Rattle.expression_rules.specs.ExpressionRules as rules;
ghost use Rattle.expression_rules.specs.Expressions as spec;
ghost use Rattle.expression_rules.specs.Values as values;
ghost use Rattle.check_rules.specs.Strings as strings;
ghost use Rattle.check_rules.specs.declared.entity.Entity.TheVariants.{RoutineOf, StandardOf};
ghost use Rattle.check_expr.specs.Reaching.{reached};
ghost use Rattle.check_expr.specs.Steps as steps;

use crate::accesses::{access_in, no_place};
use crate::arguments::{behind, is_file, leads_to_variable, passed_notes, value_notes};
use crate::functions::{alone, is_function, judged, kind_of_one, place_value, result_of};
use crate::sets::{Collected, no_members, set_of_members, with_value};
use check_rules::{
    CLEAN, Entity, Host, Parameter, RoutineEntity, Standard, StandardFile, Typing, UNKNOWN,
    WRONG_ARGUMENTS, WRONG_CLASS, WRONG_TYPE, kind_unless, string_constant, structure_at,
};
use dice_base::{NoMemory, Text};
use expression_rules::{
    Env, Judged, Notes, Place, component_place, declared_entity, domain_place, field_place,
    first_place, judgement_of_both, negation, notes_of, notes_of_both, notes_with, opened_field,
    product_type, relation_judgement, signed_judgement, sum_type,
};
use pascal_tree::{
    Access, AccessPart, AddPart, Arg, Expr, Factor, MulPart, Prefix, SetMember, SumExpr, Term,
};
use std::alloc::Global;

#[cycle(judgement_of)]
fn components_place(
    alloc: Global,
    env: &Env,
    place: Place,
    exprs: &[Expr],
) -> Result<Place, NoMemory>
    ensures { IfOk result (λ p. p ≡ accesses.components_place env.now place (map (spec.value_of env.now) exprs.now)) }
{
    let mut at = place;
    for expr in exprs {
        let value = judgement_of(alloc, env, expr)?;
        at = component_place(env, at, value)?;
    }
    Ok(at)
}

#[cycle(judgement_of)]
#[tactic(auto, unfolding(expression_rules::specs::Expressions::part_of, expression_rules::specs::Expressions::value_of))]
fn part_place(alloc: Global, env: &Env, place: Place, part: &AccessPart) -> Result<Place, NoMemory>
    ensures { IfOk result (λ p. p ≡ spec.part_of env.now part.now place) }
{
    match part {
        AccessPart::Index(exprs) => components_place(alloc, env, place, exprs.as_slice()),
        AccessPart::Field(ident) => {
            let structure = structure_at(env.table.as_slice(), place.typing);
            Ok(field_place(env, ident.bytes(), place.notes, structure))
        }
        AccessPart::Dereference => Ok(domain_place(env, place)),
    }
}

#[cycle(judgement_of)]
fn place_after(
    alloc: Global,
    env: &Env,
    place: Place,
    parts: &[AccessPart],
) -> Result<Place, NoMemory>
    ensures { IfOk result (λ p. p ≡ accesses.place_after place (map (spec.part_of env.now) parts.now)) }
{
    let mut at = place;
    for part in parts {
        at = part_place(alloc, env, at, part)?;
    }
    Ok(at)
}

/// The place to which an access leads (ISO 7185:1990, 6.5).
#[cycle(judgement_of)]
#[tactic(auto, using(crate::proofs::Ranks::reached_by))]
pub fn place_of(alloc: Global, env: &Env, access: &Access) -> Result<Place, NoMemory>
    ensures { IfOk result (λ p. spec.access_of env.now access.now ≡ reached env.now access.now p) }
{
    let first = first_place(alloc, env, access.ident.bytes());
    place_after(alloc, env, first, access.parts.as_slice())
}

#[cycle(judgement_of)]
fn access_judgement(alloc: Global, env: &Env, access: &Access) -> Result<Judged, NoMemory>
    ensures { IfOk result (λ j. j ≡ (accesses.access_value env.now (spec.access_of env.now access.now)).judged) }
{
    let [] = access.parts.as_slice() else {
        let place = place_of(alloc, env, access)?;
        return Ok(place_value(place));
    };
    Ok(alone(alloc, env, access.ident.bytes()))
}

// The place of a factor that is an access.
#[cycle(judgement_of)]
#[tactic(auto, unfolding(expression_rules::specs::Expressions::factor_of, expression_rules::specs::Expressions::access_of))]
fn place_of_factor(alloc: Global, env: &Env, factor: &Factor) -> Result<Place, NoMemory>
    ensures { IfOk result (λ p. p ≡ steps.place_or_lost (spec.factor_of env.now factor.now).access) }
{
    match factor {
        Factor::Access(access) => place_of(alloc, env, access),
        _ => Ok(no_place(alloc)),
    }
}

// The place of an expression that is one access and nothing more; of others none.
#[cycle(judgement_of)]
#[tactic(auto, using(crate::proofs::Sole::expr_sole))]
fn place_in(alloc: Global, env: &Env, expr: &Expr) -> Result<Place, NoMemory>
    ensures { IfOk result (λ p. p ≡ steps.place_or_lost (spec.value_of env.now expr.now).access) }
{
    let None = &expr.rest else {
        return Ok(no_place(alloc));
    };
    let [] = expr.first.rest.as_slice() else {
        return Ok(no_place(alloc));
    };
    let [] = expr.first.first.rest.as_slice() else {
        return Ok(no_place(alloc));
    };
    let Prefix::Without = expr.first.prefix else {
        return Ok(no_place(alloc));
    };
    place_of_factor(alloc, env, &expr.first.first.first)
}

/// What is noted of an argument's width.
#[cycle(judgement_of)]
#[tactic(auto, using(crate::proofs::Ranks::argument_is))]
pub fn width_notes(alloc: Global, env: &Env, arg: &Arg) -> Result<Notes, NoMemory>
    ensures { IfOk result (λ n. n ≡ accesses.width_notes (spec.argument_of env.now arg.now).width) }
{
    match &arg.width {
        None => Ok(notes_of(alloc, CLEAN)),
        Some(width) => {
            let value = judgement_of(alloc, env, width)?;
            Ok(value.notes)
        }
    }
}

/// What is noted of an argument's width in a call that takes none: only `write` and `writeln` do (ISO 7185:1990,
/// 6.9.3).
#[cycle(judgement_of)]
#[tactic(auto, using(crate::proofs::Ranks::argument_is))]
pub fn refused_width(alloc: Global, env: &Env, arg: &Arg) -> Result<Notes, NoMemory>
    ensures { IfOk result (λ n. n ≡ accesses.refused_width (spec.argument_of env.now arg.now).width) }
{
    match &arg.width {
        None => Ok(notes_of(alloc, CLEAN)),
        Some(width) => {
            let value = judgement_of(alloc, env, width)?;
            Ok(notes_with(value.notes, WRONG_ARGUMENTS))
        }
    }
}

#[cycle(judgement_of)]
#[tactic(auto, using(crate::proofs::Ranks::argument_is))]
fn argument_value(alloc: Global, env: &Env, arg: &Arg) -> Result<Judged, NoMemory>
    ensures { IfOk result (λ j. j ≡ (spec.argument_of env.now arg.now).value.judged) }
{
    judgement_of(alloc, env, &arg.value)
}

#[cycle(judgement_of)]
fn whole_notes(alloc: Global, env: &Env, arg: &Arg) -> Result<Notes, NoMemory>
    ensures { IfOk result (λ n. n ≡ steps.whole_notes (spec.argument_of env.now arg.now)) }
{
    let value = argument_value(alloc, env, arg)?;
    let width = width_notes(alloc, env, arg)?;
    notes_of_both(value.notes, width)
}

#[cycle(judgement_of)]
fn plain_notes(alloc: Global, env: &Env, arg: &Arg) -> Result<Notes, NoMemory>
    ensures { IfOk result (λ n. n ≡ steps.plain_notes (spec.argument_of env.now arg.now)) }
{
    let value = argument_value(alloc, env, arg)?;
    let width = refused_width(alloc, env, arg)?;
    notes_of_both(value.notes, width)
}

/// What is noted of arguments and their widths, whatever they are for.
#[cycle(judgement_of)]
pub fn all_notes(alloc: Global, env: &Env, args: &[Arg]) -> Result<Notes, NoMemory>
    ensures { IfOk result (λ n. n ≡ accesses.all_notes (map (spec.argument_of env.now) args.now)) }
{
    let mut notes = notes_of(alloc, CLEAN);
    for arg in args {
        let more = whole_notes(alloc, env, arg)?;
        notes = notes_of_both(notes, more)?;
    }
    Ok(notes)
}

/// What is noted of arguments that may have no widths.
#[cycle(judgement_of)]
pub fn argument_notes(alloc: Global, env: &Env, args: &[Arg]) -> Result<Notes, NoMemory>
    ensures { IfOk result (λ n. n ≡ accesses.argument_notes (map (spec.argument_of env.now) args.now)) }
{
    let mut notes = notes_of(alloc, CLEAN);
    for arg in args {
        let more = plain_notes(alloc, env, arg)?;
        notes = notes_of_both(notes, more)?;
    }
    Ok(notes)
}

// What a variable parameter's argument is where it is no variable.
#[cycle(judgement_of)]
fn no_variable(alloc: Global, env: &Env, expr: &Expr) -> Result<Notes, NoMemory>
    ensures { IfOk result (λ n. n ≡ values.notes_with (spec.judgement_of env.now expr.now).notes WRONG_ARGUMENTS) }
{
    let value = judgement_of(alloc, env, expr)?;
    Ok(notes_with(value.notes, WRONG_ARGUMENTS))
}

#[cycle(judgement_of)]
fn by_place_notes(
    alloc: Global,
    env: &Env,
    parameter: &Parameter,
    expr: &Expr,
) -> Result<Notes, NoMemory>
    ensures { IfOk result (λ n. n ≡ accesses.by_place_notes parameter.now (spec.value_of env.now expr.now) (spec.value_of env.now expr.now).access) }
{
    let Some(access) = access_in(expr) else {
        return no_variable(alloc, env, expr);
    };
    if leads_to_variable(env, access) {
        let place = place_in(alloc, env, expr)?;
        passed_notes(alloc, env, parameter, access, place)
    } else {
        no_variable(alloc, env, expr)
    }
}

#[cycle(judgement_of)]
#[tactic(auto, using(crate::proofs::Ranks::argument_is))]
fn argument_notes_for(
    alloc: Global,
    env: &Env,
    parameter: &Parameter,
    arg: &Arg,
) -> Result<Notes, NoMemory>
    ensures { IfOk result (λ n. n ≡ accesses.argument_notes_for env.now.table parameter.now (spec.argument_of env.now arg.now)) }
{
    let width = refused_width(alloc, env, arg)?;
    if parameter.by_place {
        let notes = by_place_notes(alloc, env, parameter, &arg.value)?;
        notes_of_both(width, notes)
    } else {
        let value = judgement_of(alloc, env, &arg.value)?;
        notes_of_both(width, value_notes(env.table.as_slice(), parameter, value))
    }
}

// An argument for the first of the parameters that are left or, if none are left, the first that is too many, or a
// later one.
#[cycle(judgement_of)]
fn notes_for(
    alloc: Global,
    env: &Env,
    over: bool,
    left: &[Parameter],
    arg: &Arg,
) -> Result<Notes, NoMemory>
    ensures { IfOk result (λ n. n ≡ steps.notes_for env.now.table over left.now (spec.argument_of env.now arg.now)) }
{
    if over {
        return whole_notes(alloc, env, arg);
    }
    let [parameter, ..] = left else {
        let width = refused_width(alloc, env, arg)?;
        let value = argument_value(alloc, env, arg)?;
        return notes_of_both(width, value.notes);
    };
    argument_notes_for(alloc, env, parameter, arg)
}

/// What is noted of the arguments of a routine with these parameters (ISO 7185:1990, 6.6.3 and 6.7.3).
#[cycle(judgement_of)]
pub fn arguments_notes(
    alloc: Global,
    env: &Env,
    parameters: &[Parameter],
    args: &[Arg],
) -> Result<Notes, NoMemory>
    ensures { IfOk result (λ n. n ≡ accesses.arguments_notes env.now.table parameters.now (map (spec.argument_of env.now) args.now)) }
{
    let mut notes = notes_of(alloc, CLEAN);
    let mut left = parameters;
    let mut over = false;
    for arg in args {
        let more = notes_for(alloc, env, over, left, arg)?;
        notes = notes_of_both(notes, more)?;
        over = over || left.is_empty();
        left = behind(left);
    }
    let fits = kind_unless(parameters.len() == args.len(), WRONG_ARGUMENTS);
    Ok(notes_with(notes, fits))
}

// An argument of `eof` or `eoln`.
#[cycle(judgement_of)]
fn input_argument(alloc: Global, env: &Env, arg: &Arg) -> Result<Notes, NoMemory>
    ensures { IfOk result (λ n. n ≡ steps.input_argument (spec.argument_of env.now arg.now)) }
{
    if is_file(env, StandardFile::Input, arg) {
        return refused_width(alloc, env, arg);
    }
    let notes = plain_notes(alloc, env, arg)?;
    Ok(notes_with(notes, WRONG_TYPE))
}

#[cycle(judgement_of)]
fn input_notes(alloc: Global, env: &Env, args: &[Arg]) -> Result<Notes, NoMemory>
    ensures { IfOk result (λ n. n ≡ accesses.input_notes (map (spec.argument_of env.now) args.now)) }
{
    let [first, rest @ ..] = args else {
        return Ok(notes_of(alloc, CLEAN));
    };
    let notes = input_argument(alloc, env, first)?;
    let others = argument_notes(alloc, env, rest)?;
    let fits = kind_unless(rest.is_empty(), WRONG_ARGUMENTS);
    notes_of_both(notes, notes_with(others, fits))
}

#[cycle(judgement_of)]
fn notes_behind(alloc: Global, env: &Env, args: &[Arg]) -> Result<Notes, NoMemory>
    ensures { IfOk result (λ n. n ≡ accesses.argument_notes (map (spec.argument_of env.now) (drop 1 args.now))) }
{
    let mut notes = notes_of(alloc, CLEAN);
    let [_, rest @ ..] = args else {
        return Ok(notes);
    };
    for arg in rest {
        let more = plain_notes(alloc, env, arg)?;
        notes = notes_of_both(notes, more)?;
    }
    Ok(notes)
}

// Arguments that may have no widths, where the notes of the value of the first are known.
#[cycle(judgement_of)]
fn notes_from(alloc: Global, env: &Env, first: Notes, args: &[Arg]) -> Result<Notes, NoMemory>
    ensures { IfOk result (λ n. n ≡ steps.notes_from first (map (spec.argument_of env.now) args.now)) }
{
    let [arg, ..] = args else {
        return Ok(first);
    };
    let width = refused_width(alloc, env, arg)?;
    let others = notes_behind(alloc, env, args)?;
    let notes = notes_of_both(first, width)?;
    notes_of_both(notes, others)
}

#[cycle(judgement_of)]
fn one_argument_value(
    alloc: Global,
    env: &Env,
    function: Standard,
    args: &[Arg],
) -> Result<Judged, NoMemory>
    ensures { IfOk result (λ j. j ≡ accesses.one_argument_value env.now.table function (map (spec.argument_of env.now) args.now)) }
{
    let [first, ..] = args else {
        return Ok(judged(alloc, Typing::Unknown, WRONG_ARGUMENTS));
    };
    let value = argument_value(alloc, env, first)?;
    let typing = value.typing;
    let notes = notes_from(alloc, env, value.notes, args)?;
    let kind = kind_of_one(env.table.as_slice(), function, typing, args.len() == 1);
    Ok(Judged {
        typing: result_of(env.table.as_slice(), function, typing),
        notes: notes_with(notes, kind),
    })
}

#[cycle(judgement_of)]
fn standard_value(
    alloc: Global,
    env: &Env,
    function: Standard,
    args: &[Arg],
) -> Result<Judged, NoMemory>
    ensures { IfOk result (λ j. j ≡ accesses.standard_value env.now.table function (map (spec.argument_of env.now) args.now)) }
{
    match function {
        Standard::Eof | Standard::Eoln => {
            let notes = input_notes(alloc, env, args)?;
            Ok(Judged {
                typing: Typing::Ordinal(Host::Boolean),
                notes,
            })
        }
        _ => one_argument_value(alloc, env, function, args),
    }
}

#[cycle(judgement_of)]
fn no_function_value(alloc: Global, env: &Env, args: &[Arg], kind: u8) -> Result<Judged, NoMemory>
    ensures { IfOk result (λ j. j ≡ accesses.no_function_value (map (spec.argument_of env.now) args.now) kind) }
{
    let notes = all_notes(alloc, env, args)?;
    Ok(Judged {
        typing: Typing::Unknown,
        notes: notes_with(notes, kind),
    })
}

#[cycle(judgement_of)]
fn call_value(
    alloc: Global,
    env: &Env,
    routine: &RoutineEntity,
    args: &[Arg],
) -> Result<Judged, NoMemory>
    ensures { IfOk result (λ j. j ≡ accesses.function_value env.now (map (spec.argument_of env.now) args.now) (Some (RoutineOf routine.now))) }
{
    if !routine.function {
        return no_function_value(alloc, env, args, WRONG_CLASS);
    }
    let notes = arguments_notes(alloc, env, routine.parameters.as_slice(), args)?;
    Ok(Judged {
        typing: routine.result,
        notes,
    })
}

#[cycle(judgement_of)]
fn standard_call(
    alloc: Global,
    env: &Env,
    standard: Standard,
    args: &[Arg],
) -> Result<Judged, NoMemory>
    ensures { IfOk result (λ j. j ≡ accesses.function_value env.now (map (spec.argument_of env.now) args.now) (Some (StandardOf standard))) }
{
    if !is_function(standard) {
        return no_function_value(alloc, env, args, WRONG_CLASS);
    }
    standard_value(alloc, env, standard, args)
}

// A function with its arguments.
#[cycle(judgement_of)]
fn function_value(alloc: Global, env: &Env, ident: &[u8], args: &[Arg]) -> Result<Judged, NoMemory>
    ensures { IfOk result (λ j. j ≡ accesses.function_value env.now (map (spec.argument_of env.now) args.now) (accesses.entity_at env.now ident.now)) }
{
    let None = opened_field(env, ident) else {
        return no_function_value(alloc, env, args, WRONG_CLASS);
    };
    match declared_entity(env, ident) {
        None => no_function_value(alloc, env, args, UNKNOWN),
        Some(Entity::RoutineOf(routine)) => call_value(alloc, env, routine, args),
        Some(Entity::StandardOf(standard)) => standard_call(alloc, env, *standard, args),
        Some(_) => no_function_value(alloc, env, args, WRONG_CLASS),
    }
}

#[cycle(judgement_of)]
fn with_member(
    alloc: Global,
    env: &Env,
    collected: Collected,
    member: &SetMember,
) -> Result<Collected, NoMemory>
    ensures { IfOk result (λ c. steps.members c ≡ steps.with_member env.now.table (steps.members collected) (spec.member_of env.now member.now)) }
{
    let first = judgement_of(alloc, env, &member.first)?;
    let table = env.table.as_slice();
    let collected = with_value(table, collected, first)?;
    match &member.last {
        None => Ok(collected),
        Some(expr) => {
            let last = judgement_of(alloc, env, expr)?;
            with_value(table, collected, last)
        }
    }
}

#[cycle(judgement_of)]
fn set_judgement(alloc: Global, env: &Env, members: &[SetMember]) -> Result<Judged, NoMemory>
    ensures { IfOk result (λ j. j ≡ values.set_judgement env.now.table (map (spec.member_of env.now) members.now)) }
{
    let mut collected = no_members(alloc);
    for member in members {
        collected = with_member(alloc, env, collected, member)?;
    }
    Ok(set_of_members(members.is_empty(), collected))
}

fn string_judgement(alloc: Global, text: &Text) -> Result<Judged, NoMemory>
    ensures { IfOk result (λ j. j ≡ rules.constant_judgement (strings.string_constant text.now)) }
{
    let constant = string_constant(alloc, text)?;
    Ok(judged(alloc, constant.typing, constant.kind))
}

#[cycle(judgement_of)]
#[tactic(auto, unfolding(expression_rules::specs::Expressions::factor_of, expression_rules::specs::Expressions::access_of, expression_rules::specs::Expressions::argument_of, expression_rules::specs::Expressions::member_of, expression_rules::specs::Expressions::value_of))]
fn factor_judgement(alloc: Global, env: &Env, factor: &Factor) -> Result<Judged, NoMemory>
    ensures { IfOk result (λ j. j ≡ (spec.factor_of env.now factor.now).judged) }
{
    match factor {
        Factor::Number(_) => Ok(judged(alloc, Typing::Ordinal(Host::Integer), CLEAN)),
        Factor::Str(text) => string_judgement(alloc, text),
        Factor::Nil => Ok(judged(alloc, Typing::Nil, CLEAN)),
        Factor::Access(access) => access_judgement(alloc, env, access),
        Factor::Call(ident, args) => function_value(alloc, env, ident.bytes(), args.as_slice()),
        Factor::Members(members) => set_judgement(alloc, env, members.as_slice()),
        Factor::Paren(expr) => judgement_of(alloc, env, expr.get()),
        Factor::Not(inner) => {
            let operand = factor_judgement(alloc, env, inner.get())?;
            Ok(negation(env.table.as_slice(), operand))
        }
    }
}

#[cycle(judgement_of)]
#[tactic(auto, using(expression_rules::proofs::Ranks::multiplied_is))]
fn product_with(alloc: Global, env: &Env, first: Judged, part: &MulPart) -> Result<Judged, NoMemory>
    ensures { IfOk result (λ j. j ≡ rules.product_with env.now.table first (spec.multiplying_of env.now part.now)) }
{
    let right = factor_judgement(alloc, env, &part.right)?;
    let made = product_type(env.table.as_slice(), part.op, first.typing, right.typing);
    judgement_of_both(first, right, made)
}

#[cycle(judgement_of)]
fn product_of_all(
    alloc: Global,
    env: &Env,
    first: Judged,
    parts: &[MulPart],
) -> Result<Judged, NoMemory>
    ensures { IfOk result (λ j. j ≡ rules.product_of_all env.now.table first (map (spec.multiplying_of env.now) parts.now)) }
{
    let mut so_far = first;
    for part in parts {
        so_far = product_with(alloc, env, so_far, part)?;
    }
    Ok(so_far)
}

#[cycle(judgement_of)]
#[tactic(auto, using(expression_rules::proofs::Ranks::term_is))]
fn term_judgement(alloc: Global, env: &Env, term: &Term) -> Result<Judged, NoMemory>
    ensures { IfOk result (λ j. j ≡ (spec.term_of env.now term.now).judged) }
{
    let first = factor_judgement(alloc, env, &term.first)?;
    product_of_all(alloc, env, first, term.rest.as_slice())
}

#[cycle(judgement_of)]
#[tactic(auto, using(expression_rules::proofs::Ranks::added_is))]
fn sum_with(alloc: Global, env: &Env, first: Judged, part: &AddPart) -> Result<Judged, NoMemory>
    ensures { IfOk result (λ j. j ≡ rules.sum_with env.now.table first (spec.adding_of env.now part.now)) }
{
    let right = term_judgement(alloc, env, &part.right)?;
    let made = sum_type(env.table.as_slice(), part.op, first.typing, right.typing);
    judgement_of_both(first, right, made)
}

#[cycle(judgement_of)]
fn sum_of_all(
    alloc: Global,
    env: &Env,
    first: Judged,
    parts: &[AddPart],
) -> Result<Judged, NoMemory>
    ensures { IfOk result (λ j. j ≡ rules.sum_of_all env.now.table first (map (spec.adding_of env.now) parts.now)) }
{
    let mut so_far = first;
    for part in parts {
        so_far = sum_with(alloc, env, so_far, part)?;
    }
    Ok(so_far)
}

#[cycle(judgement_of)]
#[tactic(auto, using(expression_rules::proofs::Ranks::sum_is))]
fn sum_judgement(alloc: Global, env: &Env, sum: &SumExpr) -> Result<Judged, NoMemory>
    ensures { IfOk result (λ j. j ≡ (spec.sum_of env.now sum.now).judged) }
{
    let first = term_judgement(alloc, env, &sum.first)?;
    let first = signed_judgement(env.table.as_slice(), sum.prefix, first);
    sum_of_all(alloc, env, first, sum.rest.as_slice())
}

/// The judgement of an expression (ISO 7185:1990, 6.7).
#[cycle(judgement_of)]
#[tactic(auto, unfolding(expression_rules::specs::Expressions::value_of, expression_rules::specs::Expressions::sum_of, expression_rules::specs::Expressions::relation_of))]
pub fn judgement_of(alloc: Global, env: &Env, expr: &Expr) -> Result<Judged, NoMemory>
    ensures { IfOk result (λ j. j ≡ spec.judgement_of env.now expr.now) }
{
    let first = sum_judgement(alloc, env, &expr.first)?;
    match &expr.rest {
        None => Ok(first),
        Some(part) => {
            let right = sum_judgement(alloc, env, &part.right)?;
            relation_judgement(env.table.as_slice(), part.op, first, right)
        }
    }
}
