//! `case` (ISO 7185:1990, 6.8.3.5): constants compatible with the selector, each once.
ghost use Rattle.std.specs.Prelude.{◌≡◌, map, IfOk};
ghost use Rattle.check_types.specs.Constants as constants;
ghost use Rattle.expression_rules.specs.Accesses as accesses;
ghost use Rattle.expression_rules.specs.Expressions as exprs;
ghost use Rattle.check_body.specs.StatementRules as spec;
ghost use Rattle.check_body.specs.Steps as steps;

use check_expr::judgement_of;
use check_rules::{
    CLEAN, JudgedConstant, Typing, WRONG_CLASS, WRONG_CONSTANT, WRONG_TYPE, WrittenType,
    faulty_constant, kind_unless, least, string_constant,
};
use check_types::{integer_constant, named_constant, number_in, signed_number};
use dice_base::NoMemory;
use expression_rules::{Env, declared_entity, may_be_compatible, may_be_ordinal, opened_field};
use pascal_tree::{Arm, Constant, Expr};
use sqlite_items::Items;
use std::alloc::Global;

/// The constants so far by their numbers, and the least kind of fault in them.
#[derive(Drop)]
pub struct Seen {
    pub numbers: Items<i32>,
    pub kind: u8,
}

fn constant_in(alloc: Global, env: &Env, constant: &Constant) -> Result<JudgedConstant, NoMemory>
    ensures { IfOk result (λ c. c ≡ constants.constant_from env.now.table (accesses.entity_at env.now) constant.now) }
{
    match constant {
        Constant::Number(prefix, number) => {
            Ok(integer_constant(signed_number(*prefix, i32::from(*number))))
        }
        Constant::Str(text) => string_constant(alloc, text),
        Constant::Named(prefix, ident) => {
            if opened_field(env, ident.bytes()).is_some() {
                return Ok(faulty_constant(WRONG_CLASS));
            }
            let entity = declared_entity(env, ident.bytes());
            named_constant(alloc, env.table.as_slice(), *prefix, entity)
        }
    }
}

fn is_same_number(number: i32, other: i32) -> bool
    ensures { result ≡ spec.same_number number other }
{
    number <= other && other <= number
}

fn has_integer(numbers: &[i32], number: i32) -> bool
    ensures { result ≡ spec.has_integer numbers.now number }
{
    for other in numbers {
        if is_same_number(*other, number) {
            return true;
        }
    }
    false
}

fn constant_fits(table: &[WrittenType], selector: Typing, typing: Typing) -> bool
    ensures { result ≡ spec.constant_fits table.now selector typing }
{
    may_be_ordinal(table, typing) && may_be_compatible(table, selector, typing)
}

fn with_number(
    table: &[WrittenType],
    selector: Typing,
    seen: Seen,
    constant: &JudgedConstant,
) -> Result<Seen, NoMemory>
    ensures { IfOk result (λ s. s ≡ steps.with_number table.now selector seen constant.now) }
{
    let Seen { mut numbers, kind } = seen;
    let number = number_in(&constant.value);
    let fits = kind_unless(constant_fits(table, selector, constant.typing), WRONG_TYPE);
    let once = kind_unless(!has_integer(numbers.as_slice(), number), WRONG_CONSTANT);
    numbers.push(number)?;
    Ok(Seen {
        numbers,
        kind: least(least(kind, constant.kind), least(fits, once)),
    })
}

fn with_constant(
    table: &[WrittenType],
    selector: Typing,
    seen: Seen,
    constant: &JudgedConstant,
) -> Result<Seen, NoMemory>
    ensures { IfOk result (λ s. s ≡ spec.with_constant table.now selector seen constant.now constant.now.typing) }
{
    match constant.typing {
        Typing::Unknown => Ok(Seen {
            numbers: seen.numbers,
            kind: least(seen.kind, constant.kind),
        }),
        _ => with_number(table, selector, seen, constant),
    }
}

fn constants_from(
    alloc: Global,
    env: &Env,
    selector: Typing,
    seen: Seen,
    constants: &[Constant],
) -> Result<Seen, NoMemory>
    ensures { IfOk result (λ s. s ≡ spec.constants_from env.now selector seen constants.now) }
{
    let mut so_far = seen;
    for constant in constants {
        let judged = constant_in(alloc, env, constant)?;
        so_far = with_constant(env.table.as_slice(), selector, so_far, &judged)?;
    }
    Ok(so_far)
}

fn arms_from(alloc: Global, env: &Env, selector: Typing, arms: &[Arm]) -> Result<Seen, NoMemory>
    ensures { IfOk result (λ s. s ≡ spec.arms_from env.now selector steps.nothing_seen (map steps.written_constants arms.now)) }
{
    let mut seen = Seen {
        numbers: Items::new(alloc),
        kind: CLEAN,
    };
    for arm in arms {
        seen = constants_from(alloc, env, selector, seen, arm.constants.as_slice())?;
    }
    Ok(seen)
}

/// The type, where it may be that of an ordinal.
pub fn ordinal_or_unknown(table: &[WrittenType], typing: Typing) -> Typing
    ensures { result ≡ spec.ordinal_or_unknown table.now typing }
{
    if may_be_ordinal(table, typing) {
        typing
    } else {
        Typing::Unknown
    }
}

/// The kind of a `case` with this selector and these arms.
pub fn case_kind(alloc: Global, env: &Env, expr: &Expr, arms: &[Arm]) -> Result<u8, NoMemory>
    ensures { IfOk result (λ k. k ≡ (spec.case_notes env.now (exprs.judgement_of env.now expr.now) (map steps.written_constants arms.now)).kind) }
{
    let value = judgement_of(alloc, env, expr)?;
    let table = env.table.as_slice();
    let fits = kind_unless(may_be_ordinal(table, value.typing), WRONG_TYPE);
    let selector = ordinal_or_unknown(table, value.typing);
    let seen = arms_from(alloc, env, selector, arms)?;
    Ok(least(value.notes.kind, least(fits, seen.kind)))
}
