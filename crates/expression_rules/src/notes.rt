//! What is noted of a part of a body that is judged, and what stands around it.
ghost use Rattle.std.specs.Prelude.{◌≡◌, [], IfOk};
ghost use Rattle.expression_rules.specs.Values as spec;

use check_rules::{Region, Typing, WrittenType, least};
use dice_base::{Name, NoMemory, Text};
use sqlite_items::Items;
use std::alloc::Global;

/// The least kind of fault, and the variables that are passed as variable arguments, each by its owner and its
/// identifier.
#[derive(Drop)]
pub struct Notes {
    pub kind: u8,
    pub passed: Items<(u32, Text)>,
}

/// An expression: its type, and what is noted of it.
#[derive(Drop)]
pub struct Judged {
    pub typing: Typing,
    pub notes: Notes,
}

/// A place that an access leads to: its type, whether it is a component of something packed, and what is noted.
#[derive(Drop)]
pub struct Place {
    pub typing: Typing,
    pub packed: bool,
    pub notes: Notes,
}

/// A record variable of a `with` statement (ISO 7185:1990, 6.8.3.10): its type, which opens its fields where it is a
/// record's, and the number of the hold that has its place, from 1. So a `with` copies no fields.
#[derive(Clone, Copy)]
pub struct OpenedRecord {
    pub typing: Typing,
    pub hold: u32,
}

/// What stands around a statement.
#[derive(Drop)]
pub struct Env {
    /// The types of the program so far.
    pub table: Items<WrittenType>,
    /// The types of pointer domains, by their declarations.
    pub domains: Items<(Name, Typing)>,
    /// The regions around the body, outermost first.
    pub regions: Items<Region>,
    /// The records that `with` statements opened around it, outermost first. They hide what the regions declare.
    pub opened: Items<OpenedRecord>,
    /// The holds of the statements around it.
    pub holds: u32,
    /// Whose block it is.
    pub owner: Name,
    /// The functions that may be assigned: those whose blocks it stands in.
    pub functions: Items<Name>,
    /// The variables that routines of the blocks around it change.
    pub changed: Items<(u32, Text)>,
}

/// Nothing passed, and this kind. Takes no memory.
pub fn notes_of(alloc: Global, kind: u8) -> Notes
    ensures { result ≡ spec.notes_of kind }
{
    Notes {
        kind,
        passed: Items::new(alloc),
    }
}

/// The notes with one more kind.
pub fn notes_with(notes: Notes, kind: u8) -> Notes
    ensures { result ≡ spec.notes_with notes kind }
{
    let Notes { kind: old, passed } = notes;
    Notes {
        kind: least(old, kind),
        passed,
    }
}

/// The notes of two parts, the first before the second.
pub fn notes_of_both(first: Notes, second: Notes) -> Result<Notes, NoMemory>
    ensures { IfOk result (λ n. n ≡ spec.notes_of_both first second) }
{
    let Notes {
        kind: a,
        mut passed,
    } = first;
    let Notes {
        kind: b,
        passed: more,
    } = second;
    passed.append(more)?;
    Ok(Notes {
        kind: least(a, b),
        passed,
    })
}
