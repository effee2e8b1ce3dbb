//! Set brackets (ISO 7185:1990, 6.7.1): members that are collected.
ghost use Rattle.std.specs.Prelude.{◌≡◌, IfOk, None};
ghost use Rattle.expression_rules.specs.Values as values;
ghost use Rattle.check_expr.specs.Steps.{members, set_of_members};

use check_rules::{
    CLEAN, Host, Packing, Typing, WRONG_TYPE, WrittenType, host_of, is_same_host, kind_unless,
};
use dice_base::NoMemory;
use expression_rules::{Judged, Notes, notes_of, notes_of_both, notes_with};
use std::alloc::Global;

/// Members so far: the host of the first of them, which the others have too, and what is noted of all.
#[derive(Drop)]
pub struct Collected {
    pub base: Option<Host>,
    pub notes: Notes,
}

/// No members yet. Takes no memory.
pub fn no_members(alloc: Global) -> Collected
    ensures { members result ≡ record { base = None; notes = values.no_notes } }
{
    Collected {
        base: None,
        notes: notes_of(alloc, CLEAN),
    }
}

fn member_kind(base: Option<Host>, host: Option<Host>) -> u8
    ensures { result ≡ values.member_kind base host }
{
    match (base, host) {
        (_, None) => WRONG_TYPE,
        (None, Some(_)) => CLEAN,
        (Some(g), Some(h)) => kind_unless(is_same_host(g, h), WRONG_TYPE),
    }
}

fn base_with(base: Option<Host>, host: Option<Host>) -> Option<Host>
    ensures { result ≡ values.base_with base host }
{
    match base {
        Some(known) => Some(known),
        None => host,
    }
}

/// One more member, or one more end of a range of members.
pub fn with_value(
    table: &[WrittenType],
    collected: Collected,
    value: Judged,
) -> Result<Collected, NoMemory>
    ensures { IfOk result (λ c. members c ≡ values.members_with table.now (members collected) value) }
{
    let notes = notes_of_both(collected.notes, value.notes)?;
    match value.typing {
        Typing::Unknown => Ok(Collected {
            base: collected.base,
            notes,
        }),
        typing => {
            let host = host_of(table, typing);
            Ok(Collected {
                base: base_with(collected.base, host),
                notes: notes_with(notes, member_kind(collected.base, host)),
            })
        }
    }
}

fn set_of_base(base: Option<Host>) -> Typing
    ensures { result ≡ values.set_of_base base }
{
    match base {
        Some(host) => Typing::CanonicalSet(host, Packing::Either),
        None => Typing::Unknown,
    }
}

/// The set of these members. Takes no memory.
pub fn set_of_members(empty: bool, collected: Collected) -> Judged
    ensures { result ≡ set_of_members empty (members collected) }
{
    let typing = if empty {
        Typing::EmptySet
    } else {
        set_of_base(collected.base)
    };
    Judged {
        typing,
        notes: collected.notes,
    }
}
