//! Functions (ISO 7185:1990, 6.6.6 and 6.7.3) by the types of their arguments, and identifiers that stand alone.
ghost use Rattle.std.specs.Prelude.{◌≡◌, [], Some};
ghost use Rattle.std.specs.Option.{option_copied};
ghost use Rattle.expression_rules.specs.Accesses as accesses;
ghost use Rattle.expression_rules.specs.Values as values;
ghost use Rattle.check_rules.specs.Typing.{Table};
ghost use Rattle.check_rules.specs.declared.entity.Entity.TheVariants.{RoutineOf, StandardOf};
ghost use Rattle.check_expr.specs.Steps as steps;

use check_rules::{
    CLEAN, Entity, Host, Parameter, RoutineEntity, Standard, Typing, WRONG_ARGUMENTS, WRONG_TYPE,
    WrittenType, host_of, kind_unless, least,
};
use expression_rules::{
    Env, Judged, Notes, Place, declared_entity, first_place, may_be_host, may_be_ordinal, notes_of,
    opened_field,
};
use std::alloc::Global;

/// A judgement in which nothing is passed. Takes no memory.
pub fn judged(alloc: Global, typing: Typing, kind: u8) -> Judged
    ensures { result ≡ values.judgement typing (values.notes_of kind) }
{
    Judged {
        typing,
        notes: notes_of(alloc, kind),
    }
}

/// The value of the variable at a place.
pub fn place_value(place: Place) -> Judged
    ensures { result ≡ accesses.place_value place }
{
    Judged {
        typing: place.typing,
        notes: place.notes,
    }
}

/// Whether a predeclared routine is a function.
pub fn is_function(standard: Standard) -> bool
    ensures { result ≡ accesses.is_function standard }
{
    match standard {
        Standard::New | Standard::Dispose => false,
        Standard::Read | Standard::Readln => false,
        Standard::Write | Standard::Writeln => false,
        _ => true,
    }
}

fn host_or_unknown(host: Option<Host>) -> Typing
    ensures { result ≡ accesses.host_or_unknown host }
{
    match host {
        Some(known) => Typing::Ordinal(known),
        None => Typing::Unknown,
    }
}

/// The type of a predeclared function of one argument.
pub fn result_of(table: &[WrittenType], function: Standard, typing: Typing) -> Typing
    ensures { result ≡ accesses.result_of table.now function typing }
{
    match function {
        Standard::Abs | Standard::Sqr | Standard::Ord => Typing::Ordinal(Host::Integer),
        Standard::Odd => Typing::Ordinal(Host::Boolean),
        Standard::Chr => Typing::Ordinal(Host::Char),
        _ => host_or_unknown(host_of(table, typing)),
    }
}

fn is_wanted(table: &[WrittenType], function: Standard, typing: Typing) -> bool
    ensures { result ≡ accesses.is_wanted table.now function typing }
{
    match function {
        Standard::Abs | Standard::Sqr | Standard::Odd | Standard::Chr => {
            may_be_host(table, Host::Integer, typing)
        }
        _ => may_be_ordinal(table, typing),
    }
}

/// The kind of a predeclared function of an argument of this type, where it is the only argument or not.
pub fn kind_of_one(table: &[WrittenType], function: Standard, typing: Typing, only: bool) -> u8
    ensures { result ≡ steps.kind_of_one table.now function typing only }
{
    least(
        kind_unless(is_wanted(table, function, typing), WRONG_TYPE),
        kind_unless(only, WRONG_ARGUMENTS),
    )
}

#[tactic(auto, using(crate::proofs::Cases::none_for))]
fn notes_of_none(alloc: Global, parameters: &[Parameter]) -> Notes
    ensures { (tys : Table) → result ≡ accesses.arguments_notes tys parameters.now [] }
{
    match parameters {
        [] => notes_of(alloc, CLEAN),
        [_, ..] => notes_of(alloc, WRONG_ARGUMENTS),
    }
}

fn call_alone(alloc: Global, routine: &RoutineEntity) -> Option<Judged>
    ensures { (tys : Table) → result ≡ steps.value_alone tys (Some (RoutineOf routine.now)) }
{
    if routine.function {
        Some(Judged {
            typing: routine.result,
            notes: notes_of_none(alloc, routine.parameters.as_slice()),
        })
    } else {
        None
    }
}

/// A predeclared function without arguments (ISO 7185:1990, 6.6.6.5). Takes no memory.
pub fn standard_without(alloc: Global, function: Standard) -> Judged
    ensures { (tys : Table) → result ≡ accesses.standard_value tys function [] }
{
    match function {
        Standard::Eof | Standard::Eoln => judged(alloc, Typing::Ordinal(Host::Boolean), CLEAN),
        _ => judged(alloc, Typing::Unknown, WRONG_ARGUMENTS),
    }
}

fn standard_alone(alloc: Global, standard: Standard) -> Option<Judged>
    ensures { (tys : Table) → result ≡ steps.value_alone tys (Some (StandardOf standard)) }
{
    if is_function(standard) {
        Some(standard_without(alloc, standard))
    } else {
        None
    }
}

fn value_alone(alloc: Global, entity: Option<&Entity>) -> Option<Judged>
    ensures { (tys : Table) → result ≡ steps.value_alone tys (option_copied entity.entry) }
{
    match entity {
        Some(Entity::ConstantOf(_, typing)) => Some(judged(alloc, *typing, CLEAN)),
        Some(Entity::RoutineOf(routine)) => call_alone(alloc, routine),
        Some(Entity::StandardOf(standard)) => standard_alone(alloc, *standard),
        _ => None,
    }
}

/// The value of an identifier alone: a constant, a function without arguments, or a variable. Takes no memory.
pub fn alone(alloc: Global, env: &Env, ident: &[u8]) -> Judged
    ensures { result ≡ steps.alone env.now.table (accesses.entity_at env.now ident.now) }
{
    let None = opened_field(env, ident) else {
        return place_value(first_place(alloc, env, ident));
    };
    match value_alone(alloc, declared_entity(env, ident)) {
        Some(value) => value,
        None => place_value(first_place(alloc, env, ident)),
    }
}
