//! Rules of sets, strings, pointers, and compatible types.
ghost use Rattle.std.specs.Prelude.{◌≡◌};
ghost use Rattle.std.specs.Option.{option_copied};
ghost use Rattle.check_rules.specs.Typing as spec;

use crate::ordinals::{are_compatible_ordinals, host_of, is_same_host, structure_at};
use crate::{Domain, Host, Packing, Structure, Typing, WrittenType};

/// A set: the host of its base, none for `[]`, and its packing.
pub type Set = (Option<Host>, Packing);

fn is_same_packing(p: Packing, q: Packing) -> bool
    ensures { result ≡ spec.is_same_packing p q }
{
    match (p, q) {
        (Packing::Either, Packing::Either) => true,
        (Packing::Unpacked, Packing::Unpacked) => true,
        (Packing::Packed, Packing::Packed) => true,
        _ => false,
    }
}

/// The base and the packing of a set type (6.4.3.4); `None` for every other type.
pub fn set_of(table: &[WrittenType], typing: Typing) -> Option<Set>
    ensures { result ≡ spec.set_of table.now typing }
{
    match typing {
        Typing::CanonicalSet(host, packing) => Some((Some(host), packing)),
        Typing::EmptySet => Some((None, Packing::Either)),
        _ => match structure_at(table, typing) {
            Some(Structure::SetOf(packed, base)) => {
                let packing = if *packed {
                    Packing::Packed
                } else {
                    Packing::Unpacked
                };
                Some((host_of(table, *base), packing))
            }
            _ => None,
        },
    }
}

fn are_compatible_packings(p: Packing, q: Packing) -> bool
    ensures { result ≡ spec.are_compatible_packings p q }
{
    match (p, q) {
        (Packing::Either, _) => true,
        (_, Packing::Either) => true,
        _ => is_same_packing(p, q),
    }
}

/// Whether two set types are compatible (6.4.5 c).
pub fn sets_agree(a: Set, b: Set) -> bool
    ensures { result ≡ spec.are_compatible_bases a b }
{
    match (a.0, b.0) {
        (None, _) => true,
        (Some(_), None) => true,
        (Some(g), Some(h)) => is_same_host(g, h) && are_compatible_packings(a.1, b.1),
    }
}

/// The type of a union, a difference or an intersection of compatible sets (6.7.2.4).
pub fn set_type(a: Set, b: Set) -> Typing
    ensures { result ≡ spec.set_type a b }
{
    match (a.0, b.0) {
        (None, None) => Typing::EmptySet,
        (None, Some(h)) => Typing::CanonicalSet(h, b.1),
        (Some(g), None) => Typing::CanonicalSet(g, a.1),
        (Some(g), Some(_)) => match a.1 {
            Packing::Either => Typing::CanonicalSet(g, b.1),
            packing => Typing::CanonicalSet(g, packing),
        },
    }
}

/// Whether two types are compatible set types.
pub fn are_compatible_sets(table: &[WrittenType], a: Typing, b: Typing) -> bool
    ensures { result ≡ spec.are_compatible_sets (spec.set_of table.now a) (spec.set_of table.now b) }
{
    match (set_of(table, a), set_of(table, b)) {
        (Some(x), Some(y)) => sets_agree(x, y),
        _ => false,
    }
}

fn string_index(structure: Option<&Structure>) -> Option<u32>
    ensures { result ≡ spec.string_index (option_copied structure.entry) }
{
    match structure {
        Some(Structure::Subrange(Host::Integer, first, last)) => {
            if *first == 1 && 1 < *last {
                Some(*last as u32)
            } else {
                None
            }
        }
        _ => None,
    }
}

/// The length of a string type.
pub fn string_length(table: &[WrittenType], typing: Typing) -> Option<u32>
    ensures { result ≡ spec.string_length table.now typing }
{
    match typing {
        Typing::Literal(length) => Some(length),
        _ => match structure_at(table, typing) {
            Some(Structure::ArrayOf(true, index, Typing::Ordinal(Host::Char))) => {
                string_index(structure_at(table, *index))
            }
            _ => None,
        },
    }
}

/// Whether two types are string types of one length (6.4.5 d).
pub fn are_same_strings(table: &[WrittenType], a: Typing, b: Typing) -> bool
    ensures { result ≡ spec.are_same_lengths (spec.string_length table.now a) (spec.string_length table.now b) }
{
    match (string_length(table, a), string_length(table, b)) {
        (Some(m), Some(n)) => m == n,
        _ => false,
    }
}

/// What a pointer type leads to (6.4.4); `None` for every other type.
pub fn domain_of(table: &[WrittenType], typing: Typing) -> Option<Domain>
    ensures { result ≡ spec.domain_of table.now typing }
{
    match structure_at(table, typing) {
        Some(Structure::Pointer(domain)) => Some(*domain),
        _ => None,
    }
}

/// Whether two types are one.
pub fn is_same_type(a: Typing, b: Typing) -> bool
    ensures { result ≡ spec.is_same_type a b }
{
    match (a, b) {
        (Typing::Ordinal(g), Typing::Ordinal(h)) => is_same_host(g, h),
        (Typing::Written(j), Typing::Written(k)) => j == k,
        (Typing::Nil, Typing::Nil) => true,
        (Typing::EmptySet, Typing::EmptySet) => true,
        _ => false,
    }
}

/// Whether two types are compatible (6.4.5).
pub fn are_compatible(table: &[WrittenType], a: Typing, b: Typing) -> bool
    ensures { result ≡ spec.are_compatible table.now a b }
{
    is_same_type(a, b)
        || are_compatible_ordinals(table, a, b)
        || are_compatible_sets(table, a, b)
        || are_same_strings(table, a, b)
}

/// Whether a value of type `b` may be assigned to a variable of type `a` (6.4.6). An unknown type fits every other.
pub fn are_assignable(table: &[WrittenType], a: Typing, b: Typing) -> bool
    ensures { result ≡ spec.is_assignable table.now a b }
{
    match (a, b) {
        (Typing::Unknown, _) => true,
        (_, Typing::Unknown) => true,
        (_, Typing::Nil) => domain_of(table, a).is_some(),
        _ => are_compatible(table, a, b),
    }
}

/// Whether `=` and `<>` compare two types as pointers of one type, `nil` among them (6.7.2.5).
pub fn are_comparable_pointers(table: &[WrittenType], a: Typing, b: Typing) -> bool
    ensures { result ≡ spec.are_comparable_pointers table.now a b }
{
    match (a, b) {
        (Typing::Nil, Typing::Nil) => true,
        (Typing::Nil, _) => domain_of(table, b).is_some(),
        (_, Typing::Nil) => domain_of(table, a).is_some(),
        _ => domain_of(table, a).is_some() && is_same_type(a, b),
    }
}
