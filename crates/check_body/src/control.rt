//! `for` (ISO 7185:1990, 6.8.3.9): a variable of the block's own variable part, which nothing in the body and no routine
//! changes.
ghost use Rattle.std.specs.Prelude.{◌≡◌, ◌++◌, IfOk, OnOk, Some, true};
ghost use Rattle.check_rules.specs.declared.entity.Entity.TheVariants.{VariableOf};
ghost use Rattle.expression_rules.specs.Accesses as accesses;
ghost use Rattle.expression_rules.specs.Expressions as exprs;
ghost use Rattle.check_body.specs.StatementRules as spec;
ghost use Rattle.check_body.specs.Steps as steps;

use crate::cases::ordinal_or_unknown;
use check_expr::{change_of, judgement_of};
use check_rules::{
    Entity, Typing, UNKNOWN, Variable, WRONG_CLASS, WRONG_CONTROL, WRONG_TYPE, WrittenType,
    kind_unless, least,
};
use dice_base::{Name, NoMemory, Text};
use expression_rules::{
    Env, Judged, declared_entity, may_be_compatible, may_be_ordinal, opened_field,
};
use pascal_tree::Expr;
use sqlite_items::Items;
use std::alloc::Global;

fn is_same_variable(variable: &(u32, Text), owner: u32, ident: &[u8]) -> bool
    ensures { result ≡ spec.same_variable variable.now (owner, ident.now) }
{
    variable.0 == owner && variable.1.bytes() == ident
}

fn has_variable(variables: &[(u32, Text)], owner: u32, ident: &[u8]) -> bool
    ensures { result ≡ spec.has_variable variables.now (owner, ident.now) }
{
    for variable in variables {
        if is_same_variable(variable, owner, ident) {
            return true;
        }
    }
    false
}

fn is_own(owner: Name, variable: Variable) -> bool
    ensures { result ≡ spec.is_own owner variable }
{
    variable.local && variable.owner.0 == owner.0
}

fn is_unchanged(env: &Env, ident: &[u8], inside: &[(u32, Text)], variable: Variable) -> bool
    ensures { result ≡ steps.is_unchanged env.now ident.now inside.now variable }
{
    let owner = variable.owner.0;
    is_own(env.owner, variable)
        && !has_variable(env.changed.as_slice(), owner, ident)
        && !has_variable(inside, owner, ident)
}

fn control_variable(
    env: &Env,
    ident: &[u8],
    inside: &[(u32, Text)],
    variable: Variable,
) -> (Typing, u8)
    ensures { result ≡ spec.control_of env.now ident.now inside.now (Some (VariableOf variable)) }
{
    let table = env.table.as_slice();
    let fits = kind_unless(may_be_ordinal(table, variable.typing), WRONG_TYPE);
    let free = kind_unless(is_unchanged(env, ident, inside, variable), WRONG_CONTROL);
    (
        ordinal_or_unknown(table, variable.typing),
        least(fits, free),
    )
}

fn control_of(env: &Env, ident: &[u8], inside: &[(u32, Text)]) -> (Typing, u8)
    ensures { result ≡ spec.control_of env.now ident.now inside.now (accesses.entity_at env.now ident.now) }
{
    let None = opened_field(env, ident) else {
        return (Typing::Unknown, WRONG_CLASS);
    };
    match declared_entity(env, ident) {
        None => (Typing::Unknown, UNKNOWN),
        Some(Entity::VariableOf(variable)) => control_variable(env, ident, inside, *variable),
        Some(Entity::FileOf(_)) => (Typing::Unknown, WRONG_TYPE),
        Some(_) => (Typing::Unknown, WRONG_CLASS),
    }
}

fn bound_kind(table: &[WrittenType], typing: Typing, value: &Judged) -> u8
    ensures { result ≡ (spec.bound_notes table.now typing value.now).kind }
{
    let ordinal = may_be_ordinal(table, value.typing);
    let fits = ordinal && may_be_compatible(table, typing, value.typing);
    least(value.notes.kind, kind_unless(fits, WRONG_TYPE))
}

/// The kind of a `for` with this control variable and these bounds, where the body changes these variables.
pub fn for_kind(
    alloc: Global,
    env: &Env,
    ident: &[u8],
    inside: &[(u32, Text)],
    first: &Expr,
    last: &Expr,
) -> Result<u8, NoMemory>
    ensures { IfOk result (λ k. k ≡ steps.for_kind env.now ident.now inside.now (exprs.judgement_of env.now first.now) (exprs.judgement_of env.now last.now)) }
{
    let (typing, kind) = control_of(env, ident, inside);
    let first = judgement_of(alloc, env, first)?;
    let last = judgement_of(alloc, env, last)?;
    let table = env.table.as_slice();
    let bounds = least(
        bound_kind(table, typing, &first),
        bound_kind(table, typing, &last),
    );
    Ok(least(bounds, kind))
}

fn control_change(alloc: Global, env: &Env, ident: &Text) -> Result<Items<(u32, Text)>, NoMemory>
    ensures { IfOk result (λ c. c ≡ accesses.change_of (accesses.entity_at env.now ident.now) ident.now true) }
{
    let None = opened_field(env, ident.bytes()) else {
        return Ok(Items::new(alloc));
    };
    change_of(alloc, declared_entity(env, ident.bytes()), ident, true)
}

/// What a `for` changes, but for its body.
pub fn for_changes(
    alloc: Global,
    env: &Env,
    ident: &Text,
    first: &Expr,
    last: &Expr,
) -> Result<Items<(u32, Text)>, NoMemory>
    ensures { IfOk result (λ c. c ≡ spec.for_changes env.now ident.now (exprs.judgement_of env.now first.now) (exprs.judgement_of env.now last.now)) }
{
    let mut changes = control_change(alloc, env, ident)?;
    let first = judgement_of(alloc, env, first)?;
    let last = judgement_of(alloc, env, last)?;
    changes.append(first.notes.passed)?;
    changes.append(last.notes.passed)?;
    Ok(changes)
}

/// The body of a `for` stands in one hold more.
pub fn enter_for(env: &mut Env) -> Result<(), NoMemory>
    ensures { OnOk result (env.new ≡ spec.env_in_for env.old) }
{
    env.holds = env.holds.checked_add(1).ok_or(NoMemory)?;
    Ok(())
}

/// Behind the body there are as many holds as before.
pub fn leave_for(env: &mut Env, holds: u32)
    ensures { env.new ≡ steps.env_holding env.old holds }
{
    env.holds = holds;
}
