//! The rules of operators (ISO 7185:1990, 6.7.2).
ghost use Rattle.std.specs.Prelude.{◌≡◌, IfOk};
ghost use Rattle.expression_rules.specs.Values as spec;
ghost use Rattle.check_rules.specs.Typing as types;
ghost use Rattle.expression_rules.specs.ExpressionRules as exprs;
ghost use Rattle.pascal_tree.specs.declared.expr.RelOp.TheVariants as rel;

use crate::notes::{Judged, notes_of_both, notes_with};
use check_rules::{
    CLEAN, Host, Set, Typing, WRONG_TYPE, WrittenType, are_comparable_pointers,
    are_compatible_ordinals, are_compatible_sets, are_same_strings, host_of, is_same_host,
    kind_unless, set_of, set_type, sets_agree,
};
use dice_base::NoMemory;
use pascal_tree::{AddOp, MulOp, Prefix, RelOp};

/// Whether a type is ordinal with this host, or unknown.
pub fn may_be_host(table: &[WrittenType], host: Host, typing: Typing) -> bool
    ensures { result ≡ spec.may_be_host table.now host typing }
{
    match typing {
        Typing::Unknown => true,
        _ => match host_of(table, typing) {
            None => false,
            Some(own) => is_same_host(own, host),
        },
    }
}

/// Whether a type is ordinal, or unknown.
pub fn may_be_ordinal(table: &[WrittenType], typing: Typing) -> bool
    ensures { result ≡ spec.may_be_ordinal table.now typing }
{
    match typing {
        Typing::Unknown => true,
        _ => host_of(table, typing).is_some(),
    }
}

/// Whether two types are compatible ordinals, or one of them is unknown.
pub fn may_be_compatible(table: &[WrittenType], a: Typing, b: Typing) -> bool
    ensures { result ≡ spec.may_be_compatible table.now a b }
{
    match (a, b) {
        (Typing::Unknown, _) => true,
        (_, Typing::Unknown) => true,
        _ => are_compatible_ordinals(table, a, b),
    }
}

fn type_on_hosts(table: &[WrittenType], host: Host, a: Typing, b: Typing) -> (Typing, u8)
    ensures { result ≡ spec.type_on_hosts table.now host a b }
{
    let fit = may_be_host(table, host, a) && may_be_host(table, host, b);
    (Typing::Ordinal(host), kind_unless(fit, WRONG_TYPE))
}

fn unknown_or_integer(a: Typing, b: Typing) -> Typing
    ensures { result ≡ spec.unknown_or_integer a b }
{
    match (a, b) {
        (Typing::Unknown, _) => Typing::Unknown,
        (_, Typing::Unknown) => Typing::Unknown,
        _ => Typing::Ordinal(Host::Integer),
    }
}

fn type_on_integers(table: &[WrittenType], a: Typing, b: Typing) -> (Typing, u8)
    ensures { result ≡ spec.type_on_integers table.now a b }
{
    let fit = may_be_host(table, Host::Integer, a) && may_be_host(table, Host::Integer, b);
    (unknown_or_integer(a, b), kind_unless(fit, WRONG_TYPE))
}

fn type_on_sets(a: Set, b: Set) -> (Typing, u8)
    ensures { result ≡ spec.type_on_sets a b }
{
    if sets_agree(a, b) {
        (set_type(a, b), CLEAN)
    } else {
        (Typing::Unknown, WRONG_TYPE)
    }
}

fn type_beside_set(other: Typing) -> (Typing, u8)
    ensures { result ≡ spec.type_beside_set other }
{
    match other {
        Typing::Unknown => (Typing::Unknown, CLEAN),
        _ => (Typing::Unknown, WRONG_TYPE),
    }
}

fn arithmetic_type(table: &[WrittenType], a: Typing, b: Typing) -> (Typing, u8)
    ensures { result ≡ spec.arithmetic_type table.now a b }
{
    match (set_of(table, a), set_of(table, b)) {
        (None, None) => type_on_integers(table, a, b),
        (Some(x), Some(y)) => type_on_sets(x, y),
        (Some(_), None) => type_beside_set(b),
        (None, Some(_)) => type_beside_set(a),
    }
}

/// The type that an adding operator makes of two, and the kind of fault.
pub fn sum_type(table: &[WrittenType], op: AddOp, a: Typing, b: Typing) -> (Typing, u8)
    ensures { result ≡ spec.sum_type table.now op a b }
{
    match op {
        AddOp::Or => type_on_hosts(table, Host::Boolean, a, b),
        _ => arithmetic_type(table, a, b),
    }
}

/// The type that a multiplying operator makes of two, and the kind of fault.
pub fn product_type(table: &[WrittenType], op: MulOp, a: Typing, b: Typing) -> (Typing, u8)
    ensures { result ≡ spec.product_type table.now op a b }
{
    match op {
        MulOp::Times => arithmetic_type(table, a, b),
        MulOp::And => type_on_hosts(table, Host::Boolean, a, b),
        _ => type_on_hosts(table, Host::Integer, a, b),
    }
}

fn is_member(table: &[WrittenType], a: Typing, b: Typing) -> bool
    ensures { result ≡ spec.is_member (types.host_of table.now a) (types.set_of table.now b) }
{
    match (host_of(table, a), set_of(table, b)) {
        (Some(_), Some((None, _))) => true,
        (Some(g), Some((Some(h), _))) => is_same_host(g, h),
        _ => false,
    }
}

fn are_equal(table: &[WrittenType], a: Typing, b: Typing) -> bool
    ensures { result ≡ spec.is_relation table.now rel.Equal a b }
{
    are_compatible_ordinals(table, a, b)
        || are_same_strings(table, a, b)
        || are_compatible_sets(table, a, b)
        || are_comparable_pointers(table, a, b)
}

fn is_relation(table: &[WrittenType], op: RelOp, a: Typing, b: Typing) -> bool
    ensures { result ≡ spec.is_relation table.now op a b }
{
    match op {
        RelOp::Equal => are_equal(table, a, b),
        RelOp::NotEqual => are_equal(table, a, b),
        RelOp::Less => are_compatible_ordinals(table, a, b) || are_same_strings(table, a, b),
        RelOp::Greater => are_compatible_ordinals(table, a, b) || are_same_strings(table, a, b),
        RelOp::LessEqual => {
            are_compatible_ordinals(table, a, b)
                || are_same_strings(table, a, b)
                || are_compatible_sets(table, a, b)
        }
        RelOp::GreaterEqual => {
            are_compatible_ordinals(table, a, b)
                || are_same_strings(table, a, b)
                || are_compatible_sets(table, a, b)
        }
        RelOp::Member => is_member(table, a, b),
    }
}

fn may_be_relation(table: &[WrittenType], op: RelOp, a: Typing, b: Typing) -> bool
    ensures { result ≡ spec.may_be_relation table.now op a b }
{
    match (a, b) {
        (Typing::Unknown, _) => true,
        (_, Typing::Unknown) => true,
        _ => is_relation(table, op, a, b),
    }
}

/// Two values and what their operator makes of them.
pub fn judgement_of_both(a: Judged, b: Judged, made: (Typing, u8)) -> Result<Judged, NoMemory>
    ensures { IfOk result (λ v. v ≡ exprs.judgement_of_both a b made) }
{
    let notes = notes_of_both(a.notes, b.notes)?;
    Ok(Judged {
        typing: made.0,
        notes: notes_with(notes, made.1),
    })
}

/// A relation of two values (6.7.2.5).
pub fn relation_judgement(
    table: &[WrittenType],
    op: RelOp,
    a: Judged,
    b: Judged,
) -> Result<Judged, NoMemory>
    ensures { IfOk result (λ v. v ≡ spec.relation_judgement table.now op a b) }
{
    let fit = kind_unless(may_be_relation(table, op, a.typing, b.typing), WRONG_TYPE);
    let notes = notes_of_both(a.notes, b.notes)?;
    Ok(Judged {
        typing: Typing::Ordinal(Host::Boolean),
        notes: notes_with(notes, fit),
    })
}

/// A value behind a sign (6.7.2.2).
pub fn signed_judgement(table: &[WrittenType], prefix: Prefix, value: Judged) -> Judged
    ensures { result ≡ spec.signed_judgement table.now prefix value }
{
    match prefix {
        Prefix::Without => value,
        _ => {
            let fit = kind_unless(may_be_host(table, Host::Integer, value.typing), WRONG_TYPE);
            Judged {
                typing: Typing::Ordinal(Host::Integer),
                notes: notes_with(value.notes, fit),
            }
        }
    }
}

/// The negation of a value (6.7.2.3).
pub fn negation(table: &[WrittenType], value: Judged) -> Judged
    ensures { result ≡ exprs.negation table.now value }
{
    let fit = kind_unless(may_be_host(table, Host::Boolean, value.typing), WRONG_TYPE);
    Judged {
        typing: Typing::Ordinal(Host::Boolean),
        notes: notes_with(value.notes, fit),
    }
}
