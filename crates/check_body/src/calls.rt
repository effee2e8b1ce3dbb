//! Procedure statements (ISO 7185:1990, 6.8.2.3).
ghost use Rattle.std.specs.Prelude.{◌≡◌, map, IfOk, Some};
ghost use Rattle.check_rules.specs.declared.entity.Entity.TheVariants.{RoutineOf};
ghost use Rattle.expression_rules.specs.Expressions as exprs;
ghost use Rattle.check_body.specs.StatementRules as spec;
ghost use Rattle.check_body.specs.Steps as steps;

use crate::heap::{dispose_notes, new_notes};
use crate::transfers::{behind_file, needs_some, read_all, write_all};
use check_expr::{all_notes, arguments_notes};
use check_rules::{Entity, RoutineEntity, Standard, StandardFile, UNKNOWN, WRONG_CLASS};
use dice_base::NoMemory;
use expression_rules::{Env, Notes, declared_entity, notes_with, opened_field};
use pascal_tree::Arg;
use std::alloc::Global;

fn no_procedure(alloc: Global, env: &Env, args: &[Arg], kind: u8) -> Result<Notes, NoMemory>
    ensures { IfOk result (λ n. n ≡ steps.no_procedure (map (exprs.argument_of env.now) args.now) kind) }
{
    let notes = all_notes(alloc, env, args)?;
    Ok(notes_with(notes, kind))
}

fn read_notes(alloc: Global, env: &Env, args: &[Arg]) -> Result<Notes, NoMemory>
    ensures { IfOk result (λ n. n ≡ steps.read_notes env.now.table (map (exprs.argument_of env.now) args.now)) }
{
    let notes = read_all(alloc, env, args)?;
    Ok(notes_with(notes, needs_some(args)))
}

fn write_notes(alloc: Global, env: &Env, args: &[Arg]) -> Result<Notes, NoMemory>
    ensures { IfOk result (λ n. n ≡ steps.write_notes env.now.table (map (exprs.argument_of env.now) args.now)) }
{
    let notes = write_all(alloc, env, args)?;
    Ok(notes_with(notes, needs_some(args)))
}

fn standard_call(
    alloc: Global,
    env: &Env,
    procedure: Standard,
    args: &[Arg],
) -> Result<Notes, NoMemory>
    ensures { IfOk result (λ n. n ≡ spec.standard_call env.now.table procedure (map (exprs.argument_of env.now) args.now)) }
{
    match procedure {
        Standard::Read => read_notes(alloc, env, behind_file(env, StandardFile::Input, args)),
        Standard::Readln => read_all(alloc, env, behind_file(env, StandardFile::Input, args)),
        Standard::Write => write_notes(alloc, env, behind_file(env, StandardFile::Output, args)),
        Standard::Writeln => write_all(alloc, env, behind_file(env, StandardFile::Output, args)),
        Standard::New => new_notes(alloc, env, args),
        Standard::Dispose => dispose_notes(alloc, env, args),
        _ => no_procedure(alloc, env, args, WRONG_CLASS),
    }
}

fn routine_call(
    alloc: Global,
    env: &Env,
    routine: &RoutineEntity,
    args: &[Arg],
) -> Result<Notes, NoMemory>
    ensures { IfOk result (λ n. n ≡ spec.procedure_call env.now.table (Some (RoutineOf routine.now)) (map (exprs.argument_of env.now) args.now)) }
{
    if routine.function {
        no_procedure(alloc, env, args, WRONG_CLASS)
    } else {
        arguments_notes(alloc, env, routine.parameters.as_slice(), args)
    }
}

/// What is noted of a procedure statement with this identifier and these arguments.
pub fn call_notes(alloc: Global, env: &Env, ident: &[u8], args: &[Arg]) -> Result<Notes, NoMemory>
    ensures { IfOk result (λ n. n ≡ spec.call_notes env.now ident.now (map (exprs.argument_of env.now) args.now)) }
{
    let None = opened_field(env, ident) else {
        return no_procedure(alloc, env, args, WRONG_CLASS);
    };
    match declared_entity(env, ident) {
        None => no_procedure(alloc, env, args, UNKNOWN),
        Some(Entity::RoutineOf(routine)) => routine_call(alloc, env, routine, args),
        Some(Entity::StandardOf(procedure)) => standard_call(alloc, env, *procedure, args),
        Some(_) => no_procedure(alloc, env, args, WRONG_CLASS),
    }
}
