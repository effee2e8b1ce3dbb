//! What an argument or an assigned variable is, beside its judgement.
ghost use Rattle.std.specs.Prelude.{◌≡◌, IfOk};
ghost use Rattle.std.specs.Option.{option_copied};
ghost use Rattle.expression_rules.specs.Accesses as accesses;
ghost use Rattle.expression_rules.specs.Expressions as spec;
ghost use Rattle.pascal_tree.specs.declared.expr.Access.{out-Access};
ghost use Rattle.check_expr.specs.Reaching.{reached};
ghost use Rattle.check_expr.specs.Steps as steps;

use crate::accesses::access_in;
use check_rules::{
    Entity, Parameter, StandardFile, Typing, WRONG_ARGUMENTS, WRONG_TYPE, WrittenType,
    are_assignable, is_same_type, kind_unless,
};
use dice_base::{NoMemory, Text};
use expression_rules::{
    Env, Judged, Notes, Place, declared_entity, notes_of_both, notes_with, opened_field,
};
use pascal_tree::{Access, Arg};
use sqlite_items::Items;
use std::alloc::Global;

fn is_same_file(file: StandardFile, other: Option<StandardFile>) -> bool
    ensures { result ≡ accesses.is_same_file file other }
{
    match (file, other) {
        (StandardFile::Input, Some(StandardFile::Input)) => true,
        (StandardFile::Output, Some(StandardFile::Output)) => true,
        _ => false,
    }
}

// The predeclared file that an expression is, where it is this access and nothing more.
fn file_at(env: &Env, access: Option<&Access>) -> Option<StandardFile>
    ensures { result ≡ steps.file_at env.now (option_copied access.entry) }
{
    let Some(access) = access else {
        return None;
    };
    let [] = access.parts.as_slice() else {
        return None;
    };
    let None = opened_field(env, access.ident.bytes()) else {
        return None;
    };
    match declared_entity(env, access.ident.bytes()) {
        Some(Entity::FileOf(file)) => Some(*file),
        _ => None,
    }
}

/// Whether an argument is this predeclared file and nothing more.
#[tactic(auto, using(crate::proofs::Sole::file_of_argument))]
pub fn is_file(env: &Env, file: StandardFile, arg: &Arg) -> bool
    ensures { result ≡ accesses.is_file file (spec.argument_of env.now arg.now) }
{
    is_same_file(file, file_at(env, access_in(&arg.value)))
}

fn may_be_variable(entity: Option<&Entity>) -> bool
    ensures { result ≡ steps.may_be_variable (option_copied entity.entry) }
{
    match entity {
        None => true,
        Some(Entity::VariableOf(_)) => true,
        Some(Entity::FieldOf(_)) => true,
        Some(_) => false,
    }
}

/// Whether an access begins at a variable, as far as is known.
pub fn leads_to_variable(env: &Env, access: &Access) -> bool
    ensures { result ≡ steps.may_be_variable (accesses.entity_at env.now (out-Access access.now).ident) }
{
    let None = opened_field(env, access.ident.bytes()) else {
        return true;
    };
    may_be_variable(declared_entity(env, access.ident.bytes()))
}

fn is_same_or_unknown(a: Typing, b: Typing) -> bool
    ensures { result ≡ accesses.same_or_unknown a b }
{
    match (a, b) {
        (Typing::Unknown, _) => true,
        (_, Typing::Unknown) => true,
        _ => is_same_type(a, b),
    }
}

/// The variable that an identifier stands for, where it stands alone: what a statement changes that assigns it, reads
/// into it or passes it by its place (ISO 7185:1990, 6.5.1).
pub fn change_of(
    alloc: Global,
    entity: Option<&Entity>,
    ident: &Text,
    whole: bool,
) -> Result<Items<(u32, Text)>, NoMemory>
    ensures { IfOk result (λ c. c ≡ accesses.change_of (option_copied entity.entry) ident.now whole) }
{
    let mut changed = Items::new(alloc);
    if !whole {
        return Ok(changed);
    }
    match entity {
        Some(Entity::VariableOf(variable)) => {
            let ident = ident.copy(alloc)?;
            changed.push((variable.owner.0, ident))?;
            Ok(changed)
        }
        _ => Ok(changed),
    }
}

/// The same of an access with what it begins at.
pub fn change_at(alloc: Global, env: &Env, access: &Access) -> Result<Items<(u32, Text)>, NoMemory>
    ensures { IfOk result (λ c. c ≡ accesses.change_of (accesses.entity_at env.now (out-Access access.now).ident) (out-Access access.now).ident (accesses.is_nil (out-Access access.now).parts)) }
{
    let None = opened_field(env, access.ident.bytes()) else {
        return Ok(Items::new(alloc));
    };
    let entity = declared_entity(env, access.ident.bytes());
    change_of(
        alloc,
        entity,
        &access.ident,
        access.parts.as_slice().is_empty(),
    )
}

fn known_notes(
    alloc: Global,
    env: &Env,
    parameter: &Parameter,
    access: &Access,
    place: Place,
) -> Result<Notes, NoMemory>
    ensures { IfOk result (λ n. n ≡ steps.known_notes parameter.now (reached env.now access.now place) (accesses.entity_at env.now (out-Access access.now).ident)) }
{
    let fits = is_same_or_unknown(parameter.typing, place.typing) && !place.packed;
    let passed = change_at(alloc, env, access)?;
    notes_of_both(
        place.notes,
        Notes {
            kind: kind_unless(fits, WRONG_ARGUMENTS),
            passed,
        },
    )
}

/// What is noted of a variable argument with this place (ISO 7185:1990, 6.6.3.3).
pub fn passed_notes(
    alloc: Global,
    env: &Env,
    parameter: &Parameter,
    access: &Access,
    place: Place,
) -> Result<Notes, NoMemory>
    ensures { IfOk result (λ n. n ≡ steps.passed_notes parameter.now (reached env.now access.now place) (accesses.entity_at env.now (out-Access access.now).ident)) }
{
    let ident = access.ident.bytes();
    match (opened_field(env, ident), declared_entity(env, ident)) {
        (None, None) => Ok(place.notes),
        _ => known_notes(alloc, env, parameter, access, place),
    }
}

/// What is noted of a value argument (ISO 7185:1990, 6.6.3.2).
pub fn value_notes(table: &[WrittenType], parameter: &Parameter, value: Judged) -> Notes
    ensures { result ≡ steps.value_notes table.now parameter.now value }
{
    let fits = are_assignable(table, parameter.typing, value.typing);
    notes_with(value.notes, kind_unless(fits, WRONG_TYPE))
}

/// The parameters behind the first.
pub fn behind(parameters: &[Parameter]) -> &[Parameter]
    ensures { result.now ≡ steps.behind parameters.now }
{
    match parameters {
        [] => parameters,
        [_, others @ ..] => others,
    }
}
