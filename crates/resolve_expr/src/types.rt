//! Types of the check as shapes, and how variables of them keep their values (ISO 7185:1990, 6.4).
ghost use Rattle.std.specs.Prelude.{◌≡◌};
ghost use Rattle.check_rules.specs.Typing as types;
ghost use Rattle.resolve_expr.specs.Nodes as spec;

use check_rules::{Host, Structure, Typing, WrittenType, bounds_of, structure_at, words_of};
use core_tree::{Op, SetOp, Shape, Storage, WordOp};

fn host_shape(host: Host) -> Shape
    ensures { result ≡ spec.host_shape host }
{
    match host {
        Host::Integer => Shape::Integer,
        Host::Boolean => Shape::Boolean,
        Host::Char => Shape::Char,
        Host::Enumeration(number) => Shape::Written(number),
    }
}

/// The shape of a type that a declaration can have: its place in the table is the same. Takes no memory.
pub fn shape_of(typing: Typing) -> Option<Shape>
    ensures { result ≡ spec.shape_of typing }
{
    match typing {
        Typing::Ordinal(host) => Some(host_shape(host)),
        Typing::Written(number) => Some(Shape::Written(number)),
        _ => None,
    }
}

fn in_byte(value: i32) -> u8
    ensures { result ≡ spec.in_byte value }
{
    value.clamp(0, 255) as u8
}

fn ordinal_storage(table: &[WrittenType], typing: Typing) -> Storage
    ensures { result ≡ spec.ordinal_storage (types.bounds_of table.now typing) }
{
    let (first, last) = bounds_of(table, typing);
    Storage::Ordinal(first, last)
}

fn set_storage(table: &[WrittenType], base: Typing) -> Storage
    ensures { result ≡ spec.set_storage (types.bounds_of table.now base) }
{
    let (first, last) = bounds_of(table, base);
    Storage::Set(in_byte(first), in_byte(last))
}

/// How a variable of a type keeps its value. Takes no memory.
pub fn storage_of(table: &[WrittenType], typing: Typing) -> Storage
    ensures { result ≡ spec.storage_of table.now typing }
{
    match structure_at(table, typing) {
        Some(Structure::SetOf(_, base)) => set_storage(table, *base),
        Some(Structure::ArrayOf(_, _, _)) => Storage::Structure(words_of(table, typing)),
        Some(Structure::RecordOf(_, _)) => Storage::Structure(words_of(table, typing)),
        Some(Structure::Pointer(_)) => Storage::Pointer,
        _ => ordinal_storage(table, typing),
    }
}

/// The operation that gives the value of a variable that is kept so. Takes no memory.
pub fn load_of(storage: Storage) -> Op
    ensures { result ≡ spec.load_of storage }
{
    match storage {
        Storage::Ordinal(_, _) => Op::Word(WordOp::Load),
        Storage::Pointer => Op::Word(WordOp::Load),
        Storage::Set(_, _) => Op::Set(SetOp::Load),
        Storage::Structure(_) => Op::Structure,
    }
}
