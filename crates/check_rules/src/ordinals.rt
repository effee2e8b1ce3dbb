//! Rules of types.
ghost use Rattle.std.specs.Prelude.{◌≡◌, ◌≤◌, slice_get};
ghost use Rattle.std.specs.Option.{option_copied};
ghost use Rattle.check_rules.specs.Typing as spec;

use crate::kinds::MAX_COUNTED;
use crate::{Host, Structure, Typing, WrittenType};
use sqlite_items::at;

/// How a written type is made; `None` for every other type.
pub fn structure_at<'a>(table: &'a [WrittenType], typing: Typing) -> Option<&'a Structure>
    ensures { option_copied result ≡ spec.structure_at table.now typing }
{
    match typing {
        Typing::Written(number) => match at(table, number as usize) {
            Some(written) => Some(&written.structure),
            None => None,
        },
        _ => None,
    }
}

/// Whether two hosts are one.
pub fn is_same_host(a: Host, b: Host) -> bool
    ensures { result ≡ spec.is_same_host a b }
{
    match (a, b) {
        (Host::Integer, Host::Integer) => true,
        (Host::Boolean, Host::Boolean) => true,
        (Host::Char, Host::Char) => true,
        (Host::Enumeration(j), Host::Enumeration(k)) => j == k,
        _ => false,
    }
}

/// The host of an ordinal type.
pub fn host_of(table: &[WrittenType], typing: Typing) -> Option<Host>
    ensures { result ≡ spec.host_of table.now typing }
{
    match typing {
        Typing::Ordinal(host) => Some(host),
        _ => match structure_at(table, typing) {
            Some(Structure::Subrange(host, _, _)) => Some(*host),
            _ => None,
        },
    }
}

/// Whether two types are ordinal and have one host.
pub fn are_compatible_ordinals(table: &[WrittenType], a: Typing, b: Typing) -> bool
    ensures { result ≡ spec.are_compatible_ordinals table.now a b }
{
    match (host_of(table, a), host_of(table, b)) {
        (Some(g), Some(h)) => is_same_host(g, h),
        _ => false,
    }
}

fn enumeration_count(table: &[WrittenType], number: u32) -> u32
    ensures value { result ≡ spec.enumeration_count (spec.structure_of (slice_get table.now number)) }
    ensures within { result ≤ MAX_COUNTED }
{
    match at(table, number as usize) {
        Some(written) => match &written.structure {
            Structure::Enumeration(idents) => {
                if idents.len() < MAX_COUNTED as usize {
                    idents.len() as u32
                } else {
                    MAX_COUNTED
                }
            }
            _ => 0,
        },
        None => 0,
    }
}

fn host_bounds(table: &[WrittenType], host: Host) -> (i32, i32)
    ensures { result ≡ spec.host_bounds table.now host }
{
    match host {
        Host::Integer => (-32_767, 32_767),
        Host::Boolean => (0, 1),
        Host::Char => (0, 127),
        Host::Enumeration(number) => (0, enumeration_count(table, number) as i32 - 1),
    }
}

/// The least and the greatest value of an ordinal type.
pub fn bounds_of(table: &[WrittenType], typing: Typing) -> (i32, i32)
    ensures { result ≡ spec.bounds_of table.now typing }
{
    match typing {
        Typing::Ordinal(host) => host_bounds(table, host),
        _ => match structure_at(table, typing) {
            Some(Structure::Subrange(_, first, last)) => (*first, *last),
            _ => (0, 0),
        },
    }
}

/// The words of a value of the type.
pub fn words_of(table: &[WrittenType], typing: Typing) -> u32
    ensures { result ≡ spec.words_of table.now typing }
{
    match typing {
        Typing::Written(number) => match at(table, number as usize) {
            Some(written) => written.words,
            None => 1,
        },
        Typing::CanonicalSet(_, _) => 8,
        Typing::EmptySet => 8,
        Typing::Literal(length) => length,
        _ => 1,
    }
}
