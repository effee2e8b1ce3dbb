//! Operators (ISO 7185:1990, 6.7.2): from resolved operands to the operation on them.
ghost use Rattle.std.specs.Prelude.{◌≡◌, IfOk};
ghost use Rattle.check_rules.specs.Typing as types;
ghost use Rattle.core_tree.specs.declared.op.Op.TheVariants as Op;
ghost use Rattle.check_rules.specs.declared.typing.Typing.TheVariants as Typing;
ghost use Rattle.std.specs.Prelude.{None};
ghost use Rattle.resolve_expr.specs.Nodes as spec;

use crate::context::KeptNode;
use crate::kept::{around, both};
use check_rules::{Host, Typing, WrittenType, set_of, string_length};
use core_tree::{Op, Relation, SetOp, WordOp};
use dice_base::NoMemory;
use expression_rules::{product_type, sum_type};
use pascal_tree::{AddOp, MulOp, Prefix, RelOp};
use std::alloc::Global;

fn word_or_set(sets: bool, on_words: WordOp, on_sets: SetOp) -> Op
    ensures { result ≡ spec.word_or_set sets (Op.Word on_words) (Op.Set on_sets) }
{
    if sets {
        Op::Set(on_sets)
    } else {
        Op::Word(on_words)
    }
}

fn add_op(op: AddOp, sets: bool) -> Op
    ensures { result ≡ spec.add_op op sets }
{
    match op {
        AddOp::Plus => word_or_set(sets, WordOp::Add, SetOp::Union),
        AddOp::Minus => word_or_set(sets, WordOp::Subtract, SetOp::Difference),
        AddOp::Or => Op::Word(WordOp::Or),
    }
}

fn mul_op(op: MulOp, sets: bool) -> Op
    ensures { result ≡ spec.mul_op op sets }
{
    match op {
        MulOp::Times => word_or_set(sets, WordOp::Multiply, SetOp::Intersection),
        MulOp::Div => Op::Word(WordOp::Divide),
        MulOp::Mod => Op::Word(WordOp::Modulo),
        MulOp::And => Op::Word(WordOp::And),
    }
}

/// `+`, `-` or `or` on two operands.
pub fn sum_with(
    alloc: Global,
    table: &[WrittenType],
    first: KeptNode,
    op: AddOp,
    second: KeptNode,
) -> Result<KeptNode, NoMemory>
    ensures { (x y : spec.Node) → first ≡ spec.kept_node x → second ≡ spec.kept_node y
        → IfOk result (λ r. r ≡ spec.kept_node (spec.sum_with table.now x (op, y))) }
{
    let (typing, _) = sum_type(table, op, first.typing, second.typing);
    let sets = set_of(table, first.typing).is_some();
    let kept = both(alloc, add_op(op, sets), None, first.kept, second.kept)?;
    Ok(KeptNode { typing, kept })
}

/// `*`, `div`, `mod` or `and` on two operands.
pub fn product_with(
    alloc: Global,
    table: &[WrittenType],
    first: KeptNode,
    op: MulOp,
    second: KeptNode,
) -> Result<KeptNode, NoMemory>
    ensures { (x y : spec.Node) → first ≡ spec.kept_node x → second ≡ spec.kept_node y
        → IfOk result (λ r. r ≡ spec.kept_node (spec.product_with table.now x (op, y))) }
{
    let (typing, _) = product_type(table, op, first.typing, second.typing);
    let sets = set_of(table, first.typing).is_some();
    let kept = both(alloc, mul_op(op, sets), None, first.kept, second.kept)?;
    Ok(KeptNode { typing, kept })
}

fn word_node(alloc: Global, op: WordOp, host: Host, operand: KeptNode) -> Result<KeptNode, NoMemory>
    ensures { (x : spec.Node) → operand ≡ spec.kept_node x
        → IfOk result (λ r. r ≡ spec.kept_node (spec.node (Typing.Ordinal host) (spec.one (Op.Word op) None x))) }
{
    let kept = around(alloc, Op::Word(op), None, operand.kept)?;
    Ok(KeptNode {
        typing: Typing::Ordinal(host),
        kept,
    })
}

/// A sign before an operand, or none.
pub fn signed(alloc: Global, prefix: Prefix, operand: KeptNode) -> Result<KeptNode, NoMemory>
    ensures { (x : spec.Node) → operand ≡ spec.kept_node x
        → IfOk result (λ r. r ≡ spec.kept_node (spec.signed prefix x)) }
{
    match prefix {
        Prefix::Without => Ok(operand),
        Prefix::Plus => word_node(alloc, WordOp::Plus, Host::Integer, operand),
        Prefix::Minus => word_node(alloc, WordOp::Negate, Host::Integer, operand),
    }
}

/// `not` before an operand.
pub fn negation(alloc: Global, operand: KeptNode) -> Result<KeptNode, NoMemory>
    ensures { (x : spec.Node) → operand ≡ spec.kept_node x
        → IfOk result (λ r. r ≡ spec.kept_node (spec.negation x)) }
{
    word_node(alloc, WordOp::Not, Host::Boolean, operand)
}

fn relation_of(op: RelOp) -> Relation
    ensures { result ≡ spec.relation_of op }
{
    match op {
        RelOp::Equal => Relation::Equal,
        RelOp::NotEqual => Relation::NotEqual,
        RelOp::Less => Relation::Less,
        RelOp::Greater => Relation::Greater,
        RelOp::LessEqual => Relation::LessEqual,
        RelOp::GreaterEqual | RelOp::Member => Relation::GreaterEqual,
    }
}

fn compare_word(table: &[WrittenType], relation: Relation, typing: Typing) -> WordOp
    ensures { result ≡ spec.compare_word relation (spec.is_set table.now typing) (types.string_length table.now typing) }
{
    if set_of(table, typing).is_some() {
        return WordOp::CompareSets(relation);
    }
    match string_length(table, typing) {
        Some(length) => WordOp::CompareStrings(relation, length),
        None => WordOp::Compare(relation),
    }
}

fn relation_word(table: &[WrittenType], op: RelOp, typing: Typing) -> WordOp
    ensures { result ≡ spec.relation_word table.now op typing }
{
    match op {
        RelOp::Member => WordOp::In,
        _ => compare_word(table, relation_of(op), typing),
    }
}

/// A relation of two operands (ISO 7185:1990, 6.7.2.5).
pub fn compared(
    alloc: Global,
    table: &[WrittenType],
    op: RelOp,
    first: KeptNode,
    second: KeptNode,
) -> Result<KeptNode, NoMemory>
    ensures { (x y : spec.Node) → first ≡ spec.kept_node x → second ≡ spec.kept_node y
        → IfOk result (λ r. r ≡ spec.kept_node (spec.compared table.now op x y)) }
{
    let word = relation_word(table, op, first.typing);
    let kept = both(alloc, Op::Word(word), None, first.kept, second.kept)?;
    Ok(KeptNode {
        typing: Typing::Ordinal(Host::Boolean),
        kept,
    })
}
