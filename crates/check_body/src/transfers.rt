//! `read`, `readln`, `write` and `writeln` (ISO 7185:1990, 6.9).
ghost use Rattle.std.specs.Prelude.{◌≡◌, map, IfOk};
ghost use Rattle.pascal_tree.specs.declared.expr.Arg.{Arg};
ghost use Rattle.expression_rules.specs.Expressions as exprs;
ghost use Rattle.expression_rules.specs.Values.{Argument};
ghost use Rattle.check_body.specs.StatementRules as spec;
ghost use Rattle.check_body.specs.Steps as steps;

use crate::assign::place_target;
use check_expr::{access_in, is_file, judgement_of, refused_width, width_notes};
use check_rules::{
    CLEAN, Host, StandardFile, Typing, WRONG_ARGUMENTS, WRONG_CONSTANT, WRONG_TYPE, WrittenType,
    host_of, kind_unless, least, string_length,
};
use dice_base::NoMemory;
use expression_rules::{Env, Notes, may_be_host, notes_of, notes_of_both, notes_with};
use pascal_tree::{Arg, Expr};
use std::alloc::Global;

const MAX_WRITTEN_STRING: u32 = 255;

fn may_read(table: &[WrittenType], typing: Typing) -> bool
    ensures { result ≡ spec.may_read table.now typing }
{
    match typing {
        Typing::Unknown => true,
        _ => match host_of(table, typing) {
            Some(Host::Integer) => true,
            Some(Host::Char) => true,
            _ => false,
        },
    }
}

// The variable that an argument must be.
fn variable_in(alloc: Global, env: &Env, expr: &Expr) -> Result<(Typing, Notes), NoMemory>
    ensures { IfOk result (λ t. t ≡ spec.variable_in (exprs.value_of env.now expr.now) (exprs.value_of env.now expr.now).access) }
{
    let Some(access) = access_in(expr) else {
        let value = judgement_of(alloc, env, expr)?;
        return Ok((Typing::Unknown, notes_with(value.notes, WRONG_TYPE)));
    };
    place_target(alloc, env, access)
}

#[tactic(auto, using(check_expr::proofs::Ranks::argument_is))]
fn read_argument(alloc: Global, env: &Env, arg: &Arg) -> Result<Notes, NoMemory>
    ensures { IfOk result (λ n. n ≡ steps.read_argument env.now.table (exprs.argument_of env.now arg.now)) }
{
    let (typing, notes) = variable_in(alloc, env, &arg.value)?;
    let width = refused_width(alloc, env, arg)?;
    let both = notes_of_both(notes, width)?;
    let fits = may_read(env.table.as_slice(), typing);
    Ok(notes_with(both, kind_unless(fits, WRONG_TYPE)))
}

/// What is noted of arguments into which values are read: integers, chars and subranges of them.
pub fn read_all(alloc: Global, env: &Env, args: &[Arg]) -> Result<Notes, NoMemory>
    ensures { IfOk result (λ n. n ≡ spec.read_all env.now.table (map (exprs.argument_of env.now) args.now)) }
{
    let mut notes = notes_of(alloc, CLEAN);
    for arg in args {
        let more = read_argument(alloc, env, arg)?;
        notes = notes_of_both(notes, more)?;
    }
    Ok(notes)
}

fn may_write(table: &[WrittenType], typing: Typing) -> u8
    ensures { result ≡ spec.may_write table.now typing }
{
    match typing {
        Typing::Unknown => CLEAN,
        _ => match (string_length(table, typing), host_of(table, typing)) {
            (Some(length), _) => kind_unless(length <= MAX_WRITTEN_STRING, WRONG_CONSTANT),
            (None, None) => WRONG_TYPE,
            (None, Some(Host::Enumeration(_))) => WRONG_TYPE,
            (None, Some(_)) => CLEAN,
        },
    }
}

#[tactic(auto, using(check_expr::proofs::Ranks::argument_is))]
fn width_kind(alloc: Global, env: &Env, arg: &Arg) -> Result<u8, NoMemory>
    ensures { IfOk result (λ k. k ≡ spec.width_kind env.now.table (exprs.argument_of env.now arg.now).width) }
{
    match &arg.width {
        None => Ok(CLEAN),
        Some(width) => {
            let value = judgement_of(alloc, env, width)?;
            let fits = may_be_host(env.table.as_slice(), Host::Integer, value.typing);
            Ok(kind_unless(fits, WRONG_TYPE))
        }
    }
}

#[tactic(auto, using(check_expr::proofs::Ranks::argument_is))]
fn write_one(alloc: Global, env: &Env, arg: &Arg) -> Result<Notes, NoMemory>
    ensures { IfOk result (λ n. n ≡ spec.write_one env.now.table (exprs.argument_of env.now arg.now)) }
{
    let value = judgement_of(alloc, env, &arg.value)?;
    let written = may_write(env.table.as_slice(), value.typing);
    let width = width_notes(alloc, env, arg)?;
    let both = notes_of_both(value.notes, width)?;
    let kind = width_kind(alloc, env, arg)?;
    Ok(notes_with(both, least(written, kind)))
}

/// What is noted of arguments that are written: integers, chars, Booleans and strings.
pub fn write_all(alloc: Global, env: &Env, args: &[Arg]) -> Result<Notes, NoMemory>
    ensures { IfOk result (λ n. n ≡ spec.write_all env.now.table (map (exprs.argument_of env.now) args.now)) }
{
    let mut notes = notes_of(alloc, CLEAN);
    for arg in args {
        let more = write_one(alloc, env, arg)?;
        notes = notes_of_both(notes, more)?;
    }
    Ok(notes)
}

#[tactic(auto, using(check_expr::proofs::Ranks::argument_is))]
fn has_width(env: &Env, arg: &Arg) -> bool
    ensures { result ≡ steps.has_width (exprs.argument_of env.now arg.now) }
{
    arg.width.is_some()
}

fn is_bare_file(env: &Env, file: StandardFile, arg: &Arg) -> bool
    ensures { result ≡ spec.is_bare_file file (exprs.argument_of env.now arg.now) }
{
    !has_width(env, arg) && is_file(env, file, arg)
}

/// The arguments behind a first one that is the file.
pub fn behind_file<'a>(env: &Env, file: StandardFile, args: &'a [Arg]) -> &'a [Arg]
    ensures { map (exprs.argument_of env.now) result.now ≡ spec.behind_file file (map (exprs.argument_of env.now) args.now) }
{
    let [first, others @ ..] = args else {
        return args;
    };
    if is_bare_file(env, file, first) {
        others
    } else {
        args
    }
}

/// The kind of arguments of which there must be one.
pub fn needs_some(args: &[Arg]) -> u8
    ensures { (f : Arg → Argument) → result ≡ spec.needs_some (map f args.now) }
{
    match args {
        [] => WRONG_ARGUMENTS,
        [_, ..] => CLEAN,
    }
}
