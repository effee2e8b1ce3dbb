//! The table of charges, temporaries and holds, row by row.
ghost use Rattle.std.specs.Prelude.{◌≡◌, ◌≤◌, ◌+◌, ◌*◌};
ghost use Rattle.core_tree.specs.Charge.{argument_charge, assign_charge, counted_charge, effect_charge, link_charge, op_charge, op_need, op_width, own_holds, parameter_charge, place_charge, set_charge, statement_charge, variable_charge, word_charge};

use crate::counting::{count, counted_sum};
use crate::limits::MAX_COUNTED_CHARGE;
use crate::{
    EffectOp, Op, Parameter, PlaceOp, Scope, SetOp, StatementOp, Storage, Variable, WordOp,
};

/// The words of code of an operation besides those of its parts, counted up to 1,000,000. Takes no memory.
pub fn op_charge(op: &Op) -> u32
    ensures { result ≡ counted_charge (op_charge op.now) }
{
    match op {
        Op::Place(place) => place_charge(*place),
        Op::Word(word) => word_charge(*word),
        Op::Set(set) => set_charge(*set),
        Op::Literal(text) => counted_sum(8, count(text.bytes().len())),
        Op::Structure => 0,
        Op::Argument(to) => argument_charge(*to),
        Op::ActualVariable => 8,
        Op::Call(callee) => 24 + link_charge(callee.scope),
        Op::Effect(effect) => effect_charge(*effect),
    }
}

/// The words of temporaries that an operation's value takes: 8 for a set, none for an effect, else 1. Takes no memory.
pub fn op_width(op: &Op) -> u32
    ensures value { result ≡ op_width op.now }
    ensures small { result ≤ 8 }
{
    match op {
        Op::Set(_) => 8,
        Op::Argument(Storage::Set(_, _)) => 8,
        Op::Effect(_) => 0,
        _ => 1,
    }
}

/// The words of temporaries that an operation takes itself, whose parts have values of so many words together, counted up to
/// 1,000,000. Takes no memory.
pub fn op_need(op: &Op, below: u32) -> u32
    requires { below ≤ MAX_COUNTED_CHARGE }
    ensures { result ≡ counted_charge (op_need op.now below) }
{
    match op {
        Op::Set(_) => 8,
        Op::Call(_) => counted_sum(1, below),
        _ => 1,
    }
}

/// The words of code of a statement besides those of its parts, counted up to 1,000,000. Takes no memory.
pub fn statement_charge(op: &StatementOp) -> u32
    ensures { result ≡ counted_charge (statement_charge op.now) }
{
    match op {
        StatementOp::Assign(to) => assign_charge(*to),
        StatementOp::If(_) | StatementOp::While | StatementOp::Repeat => 16,
        StatementOp::Case(labels) => case_charge(labels.len()),
        StatementOp::For(looping) => 64 + variable_charge(looping.variable),
        StatementOp::With => 0,
        StatementOp::Read(_) | StatementOp::Write(_) | StatementOp::Dispose(_) => 16,
        StatementOp::New(_) => 24,
        StatementOp::Empty | StatementOp::Goto(_) | StatementOp::Call => 8,
    }
}

// The row of a `case` with so many constants.
fn case_charge(constants: usize) -> u32
    ensures { result ≡ counted_charge (16 + 8 * constants) }
{
    let constants = count(constants);
    (16 + 8 * constants).min(MAX_COUNTED_CHARGE)
}

fn assign_charge(to: Storage) -> u32
    ensures value { result ≡ assign_charge to }
    ensures small { result ≤ 72 }
{
    match to {
        Storage::Ordinal(_, _) | Storage::Pointer => 24,
        Storage::Set(_, _) => 72,
        Storage::Structure(_) => 32,
    }
}

/// The holds that a statement with so many parts has for the statements in it, counted up to 1,000,000. Takes no memory.
pub fn own_holds(op: &StatementOp, parts: usize) -> u32
    ensures value { result ≡ counted_charge (own_holds op.now parts) }
    ensures small { result ≤ MAX_COUNTED_CHARGE }
{
    match op {
        StatementOp::For(_) => 1,
        StatementOp::With => count(parts),
        _ => 0,
    }
}

/// The words of code of a parameter in the block of its routine.
pub fn parameter_charge(parameter: Parameter) -> u32
    ensures value { result ≡ parameter_charge parameter }
    ensures small { result ≤ 16 }
{
    match parameter {
        Parameter::Scalar | Parameter::ByPlace => 8,
        Parameter::Set | Parameter::Structure(_) => 16,
    }
}

// Two words for each static link.
fn link_charge(scope: Scope) -> u32
    ensures value { result ≡ link_charge scope }
    ensures small { result ≤ 510 }
{
    match scope {
        Scope::Program => 0,
        Scope::Routine(links) => 2 * u32::from(links),
    }
}

fn variable_charge(variable: Variable) -> u32
    ensures value { result ≡ variable_charge variable }
    ensures small { result ≤ 522 }
{
    let place = 8 + link_charge(variable.scope);
    if variable.by_place { place + 4 } else { place }
}

fn place_charge(op: PlaceOp) -> u32
    ensures value { result ≡ place_charge op }
    ensures small { result ≤ 522 }
{
    match op {
        PlaceOp::Variable(variable) => variable_charge(variable),
        PlaceOp::Held(_, _) => 8,
        PlaceOp::Field(_) => 4,
        PlaceOp::Index(_, _, _) => 24,
        PlaceOp::Dereference(_) => 12,
    }
}

fn word_charge(op: WordOp) -> u32
    ensures value { result ≡ word_charge op }
    ensures small { result ≤ 48 }
{
    match op {
        WordOp::Plus | WordOp::Ord => 0,
        WordOp::Constant(_) | WordOp::Nil | WordOp::Load => 4,
        WordOp::Not | WordOp::Odd | WordOp::Eof | WordOp::Eoln => 8,
        WordOp::Negate | WordOp::Add | WordOp::Subtract | WordOp::And | WordOp::Or => 16,
        WordOp::Compare(_) | WordOp::Abs | WordOp::Chr => 16,
        WordOp::Multiply | WordOp::Sqr | WordOp::Succ(_, _) | WordOp::Pred(_, _) => 20,
        WordOp::Divide => 28,
        WordOp::Modulo => 32,
        WordOp::In => 40,
        WordOp::CompareSets(_) | WordOp::CompareStrings(_, _) => 48,
    }
}

fn set_charge(op: SetOp) -> u32
    ensures value { result ≡ set_charge op }
    ensures small { result ≤ 64 }
{
    match op {
        SetOp::Load | SetOp::Empty => 16,
        SetOp::Include | SetOp::Union | SetOp::Difference | SetOp::Intersection => 40,
        SetOp::IncludeRange => 64,
    }
}

fn argument_charge(to: Storage) -> u32
    ensures value { result ≡ argument_charge to }
    ensures small { result ≤ 72 }
{
    match to {
        Storage::Ordinal(_, _) | Storage::Pointer => 16,
        Storage::Set(_, _) => 72,
        Storage::Structure(_) => 8,
    }
}

fn effect_charge(op: EffectOp) -> u32
    ensures value { result ≡ effect_charge op }
    ensures small { result ≤ 24 }
{
    match op {
        EffectOp::Hold(_, _) => 16,
        EffectOp::ReadInteger(_, _) | EffectOp::ReadChar(_, _) | EffectOp::Write(_, _) => 24,
    }
}
