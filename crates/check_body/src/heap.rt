//! `new` and `dispose` (ISO 7185:1990, 6.6.5.3).
ghost use Rattle.std.specs.Prelude.{◌≡◌, map, IfOk};
ghost use Rattle.expression_rules.specs.Expressions as exprs;
ghost use Rattle.check_body.specs.StatementRules as spec;
ghost use Rattle.check_body.specs.Steps as steps;

use check_expr::{access_in, argument_notes, judgement_of, place_of, refused_width};
use check_rules::{
    Typing, WRONG_ARGUMENTS, WRONG_TYPE, WrittenType, domain_of, kind_unless, least,
};
use dice_base::NoMemory;
use expression_rules::{Env, Notes, notes_of, notes_of_both, notes_with};
use pascal_tree::{Arg, Expr};
use std::alloc::Global;

fn is_pointer(table: &[WrittenType], typing: Typing) -> bool
    ensures { result ≡ spec.is_pointer table.now typing }
{
    match typing {
        Typing::Unknown => true,
        _ => domain_of(table, typing).is_some(),
    }
}

fn on_heap(
    alloc: Global,
    env: &Env,
    typing: Typing,
    notes: Notes,
    arg: &Arg,
    others: &[Arg],
) -> Result<Notes, NoMemory>
    ensures { IfOk result (λ n. n ≡ spec.on_heap env.now.table (typing, notes) (exprs.argument_of env.now arg.now) (map (exprs.argument_of env.now) others.now)) }
{
    let width = refused_width(alloc, env, arg)?;
    let rest = argument_notes(alloc, env, others)?;
    let first = notes_of_both(notes, width)?;
    let all = notes_of_both(first, rest)?;
    let fits = kind_unless(is_pointer(env.table.as_slice(), typing), WRONG_TYPE);
    let alone = kind_unless(others.is_empty(), WRONG_ARGUMENTS);
    Ok(notes_with(all, least(fits, alone)))
}

// The variable that the argument of `new` must be.
fn variable_only(alloc: Global, env: &Env, expr: &Expr) -> Result<(Typing, Notes), NoMemory>
    ensures { IfOk result (λ t. t ≡ spec.variable_only (exprs.value_of env.now expr.now) (exprs.value_of env.now expr.now).access) }
{
    let Some(access) = access_in(expr) else {
        let value = judgement_of(alloc, env, expr)?;
        return Ok((Typing::Unknown, notes_with(value.notes, WRONG_TYPE)));
    };
    let place = place_of(alloc, env, access)?;
    Ok((place.typing, place.notes))
}

#[tactic(auto, using(check_expr::proofs::Ranks::argument_is))]
fn new_variable(alloc: Global, env: &Env, arg: &Arg) -> Result<(Typing, Notes), NoMemory>
    ensures { IfOk result (λ t. t ≡ steps.new_variable (exprs.argument_of env.now arg.now)) }
{
    variable_only(alloc, env, &arg.value)
}

/// What is noted of `new` with these arguments.
pub fn new_notes(alloc: Global, env: &Env, args: &[Arg]) -> Result<Notes, NoMemory>
    ensures { IfOk result (λ n. n ≡ spec.new_notes env.now.table (map (exprs.argument_of env.now) args.now)) }
{
    let [first, others @ ..] = args else {
        return Ok(notes_of(alloc, WRONG_ARGUMENTS));
    };
    let (typing, notes) = new_variable(alloc, env, first)?;
    on_heap(alloc, env, typing, notes, first, others)
}

#[tactic(auto, using(check_expr::proofs::Ranks::argument_is))]
fn disposed_value(alloc: Global, env: &Env, arg: &Arg) -> Result<(Typing, Notes), NoMemory>
    ensures { IfOk result (λ t. t ≡ steps.disposed_value (exprs.argument_of env.now arg.now)) }
{
    let value = judgement_of(alloc, env, &arg.value)?;
    Ok((value.typing, value.notes))
}

/// What is noted of `dispose` with these arguments.
pub fn dispose_notes(alloc: Global, env: &Env, args: &[Arg]) -> Result<Notes, NoMemory>
    ensures { IfOk result (λ n. n ≡ spec.dispose_notes env.now.table (map (exprs.argument_of env.now) args.now)) }
{
    let [first, others @ ..] = args else {
        return Ok(notes_of(alloc, WRONG_ARGUMENTS));
    };
    let (typing, notes) = disposed_value(alloc, env, first)?;
    on_heap(alloc, env, typing, notes, first, others)
}
