//! Conditions, and assignments (ISO 7185:1990, 6.8.2.2): to a variable, or in a function's block to its identifier.
ghost use Rattle.std.specs.Prelude.{◌≡◌, nat_eq, IfOk};
ghost use Rattle.pascal_tree.specs.declared.expr.Access.{out-Access};
ghost use Rattle.expression_rules.specs.Accesses as accesses;
ghost use Rattle.expression_rules.specs.Expressions as exprs;
ghost use Rattle.check_body.specs.StatementRules as spec;
ghost use Rattle.check_body.specs.Steps as steps;

use check_expr::{change_at, judgement_of, place_of};
use check_rules::{
    CLEAN, Entity, Host, RoutineEntity, Typing, WRONG_TYPE, are_assignable, kind_unless, least,
};
use dice_base::{Name, NoMemory};
use expression_rules::{
    Env, Judged, Notes, declared_entity, may_be_host, notes_of, notes_of_both, notes_with,
    opened_field,
};
use pascal_tree::{Access, Expr};
use std::alloc::Global;

/// The kind of a condition, which is Boolean (ISO 7185:1990, 6.8.3.4, 6.8.3.7 and 6.8.3.8).
pub fn condition_kind(alloc: Global, env: &Env, expr: &Expr) -> Result<u8, NoMemory>
    ensures { IfOk result (λ k. k ≡ (spec.condition_notes env.now (exprs.judgement_of env.now expr.now)).kind) }
{
    let value = judgement_of(alloc, env, expr)?;
    let fits = may_be_host(env.table.as_slice(), Host::Boolean, value.typing);
    Ok(least(value.notes.kind, kind_unless(fits, WRONG_TYPE)))
}

fn is_same_name(name: Name, other: Name) -> bool
    ensures { result ≡ nat_eq name.0 other.0 }
{
    name.0 == other.0
}

fn is_open(functions: &[Name], function: Name) -> bool
    ensures { result ≡ spec.is_open functions.now function }
{
    for other in functions {
        if is_same_name(*other, function) {
            return true;
        }
    }
    false
}

fn open_result(functions: &[Name], routine: &RoutineEntity) -> Option<Typing>
    ensures { result ≡ steps.open_result functions.now routine.now }
{
    if routine.function && is_open(functions, routine.name) {
        Some(routine.result)
    } else {
        None
    }
}

// The type of the function's result, where an identifier alone is assigned in the block of the function for which it
// stands.
fn result_typing(env: &Env, access: &Access) -> Option<Typing>
    ensures { result ≡ steps.result_typing env.now (accesses.entity_at env.now (out-Access access.now).ident) (accesses.is_nil (out-Access access.now).parts) }
{
    let [] = access.parts.as_slice() else {
        return None;
    };
    let None = opened_field(env, access.ident.bytes()) else {
        return None;
    };
    match declared_entity(env, access.ident.bytes()) {
        Some(Entity::RoutineOf(routine)) => open_result(env.functions.as_slice(), routine),
        _ => None,
    }
}

/// The type and the notes of a variable to which a value goes, with the change that it is.
pub fn place_target(alloc: Global, env: &Env, access: &Access) -> Result<(Typing, Notes), NoMemory>
    ensures { IfOk result (λ t. t ≡ spec.place_target (exprs.access_of env.now access.now)) }
{
    let place = place_of(alloc, env, access)?;
    let change = change_at(alloc, env, access)?;
    let Notes { kind, mut passed } = place.notes;
    passed.append(change)?;
    Ok((place.typing, Notes { kind, passed }))
}

#[tactic(auto, using(crate::proofs::Targets::target_at))]
fn target_of(alloc: Global, env: &Env, access: &Access) -> Result<(Typing, Notes), NoMemory>
    ensures { IfOk result (λ t. t ≡ steps.target_of env.now (exprs.access_of env.now access.now)) }
{
    match result_typing(env, access) {
        Some(typing) => Ok((typing, notes_of(alloc, CLEAN))),
        None => place_target(alloc, env, access),
    }
}

fn assigned_notes(env: &Env, typing: Typing, notes: Notes, value: Judged) -> Result<Notes, NoMemory>
    ensures { IfOk result (λ n. n ≡ spec.assigned_notes env.now (typing, notes) value) }
{
    let fits = are_assignable(env.table.as_slice(), typing, value.typing);
    let both = notes_of_both(notes, value.notes)?;
    Ok(notes_with(both, kind_unless(fits, WRONG_TYPE)))
}

/// What is noted of an assignment (ISO 7185:1990, 6.8.2.2).
pub fn assignment_notes(
    alloc: Global,
    env: &Env,
    access: &Access,
    expr: &Expr,
) -> Result<Notes, NoMemory>
    ensures { IfOk result (λ n. n ≡ spec.assignment_notes env.now (exprs.access_of env.now access.now) (exprs.judgement_of env.now expr.now)) }
{
    let (typing, notes) = target_of(alloc, env, access)?;
    let value = judgement_of(alloc, env, expr)?;
    assigned_notes(env, typing, notes, value)
}
