//! Constants (ISO 7185:1990, 6.3).
ghost use Rattle.std.specs.Prelude.{◌≡◌, ◌++◌, ◌∷◌, IfOk};
ghost use Rattle.std.specs.Option.{option_copied};
ghost use Rattle.check_types.specs.Constants as spec;

use check_rules::{
    CLEAN, Constant, Entity, Host, JudgedConstant, Region, Typing, UNKNOWN, WRONG_CLASS,
    WRONG_TYPE, WrittenType, entity_of, faulty_constant, host_of, string_constant,
};
use dice_base::NoMemory;
use pascal_tree::{Constant as WrittenConstant, Prefix};
use std::alloc::Global;

/// An integer, as a constant. Takes no memory.
pub fn integer_constant(value: i32) -> JudgedConstant
    ensures { result ≡ spec.integer_constant value }
{
    JudgedConstant {
        value: Constant::Number(value),
        typing: Typing::Ordinal(Host::Integer),
        kind: CLEAN,
    }
}

fn opposite(value: i32) -> i32
    ensures { result ≡ spec.opposite value }
{
    if -2_147_483_647 <= value {
        -value
    } else {
        value
    }
}

/// A number with its sign. Takes no memory.
pub fn signed_number(prefix: Prefix, value: i32) -> i32
    ensures { result ≡ spec.signed_number prefix value }
{
    match prefix {
        Prefix::Minus => opposite(value),
        _ => value,
    }
}

fn copy_constant(alloc: Global, value: &Constant) -> Result<Constant, NoMemory>
    ensures { IfOk result (λ c. c ≡ value.now) }
{
    match value {
        Constant::Number(number) => Ok(Constant::Number(*number)),
        Constant::Chars(chars) => {
            let chars = chars.copy(alloc)?;
            Ok(Constant::Chars(chars))
        }
    }
}

/// The number of an ordinal constant.
pub fn number_in(value: &Constant) -> i32
    ensures { result ≡ spec.number_in value.now }
{
    match value {
        Constant::Number(number) => *number,
        Constant::Chars(_) => 0,
    }
}

fn signed_constant(
    alloc: Global,
    table: &[WrittenType],
    prefix: Prefix,
    value: &Constant,
    typing: Typing,
) -> Result<JudgedConstant, NoMemory>
    ensures { IfOk result (λ c. c ≡ spec.signed_constant table.now prefix value.now typing) }
{
    match (prefix, typing) {
        (Prefix::Without, _) => {
            let value = copy_constant(alloc, value)?;
            Ok(JudgedConstant {
                value,
                typing,
                kind: CLEAN,
            })
        }
        (_, Typing::Unknown) => Ok(faulty_constant(CLEAN)),
        _ => match host_of(table, typing) {
            Some(Host::Integer) => Ok(integer_constant(signed_number(prefix, number_in(value)))),
            _ => Ok(faulty_constant(WRONG_TYPE)),
        },
    }
}

/// A constant that an identifier names, with its sign, where the identifier stands for this.
pub fn named_constant(
    alloc: Global,
    table: &[WrittenType],
    prefix: Prefix,
    entity: Option<&Entity>,
) -> Result<JudgedConstant, NoMemory>
    ensures { IfOk result (λ c. c ≡ spec.named_constant table.now prefix (option_copied entity.entry)) }
{
    match entity {
        None => Ok(faulty_constant(UNKNOWN)),
        Some(Entity::ConstantOf(value, typing)) => signed_constant(
            alloc, table, prefix, value, *typing,
        ),
        Some(_) => Ok(faulty_constant(WRONG_CLASS)),
    }
}

/// A constant as it is written.
pub fn constant_of(
    alloc: Global,
    table: &[WrittenType],
    outer: &[Region],
    block: &Region,
    fields: &[Region],
    constant: &WrittenConstant,
) -> Result<JudgedConstant, NoMemory>
    ensures { IfOk result (λ c. c ≡ spec.constant_of table.now (outer.now ++ block.now ∷ fields.now) constant.now) }
{
    match constant {
        WrittenConstant::Number(prefix, number) => Ok(integer_constant(signed_number(
            *prefix,
            *number as i32,
        ))),
        WrittenConstant::Named(prefix, ident) => {
            let entity = entity_of(outer, block, fields, ident.bytes());
            named_constant(alloc, table, *prefix, entity)
        }
        WrittenConstant::Str(text) => string_constant(alloc, text),
    }
}
