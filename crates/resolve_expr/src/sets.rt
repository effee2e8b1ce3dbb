//! Set brackets (ISO 7185:1990, 6.7.1): members that are put into an empty set.
ghost use Rattle.std.specs.Prelude.{◌≡◌, IfOk, Some, None};
ghost use Rattle.expression_rules.specs.Values as values;
ghost use Rattle.resolve_expr.specs.Nodes as spec;

use crate::context::{KeptCollected, KeptNode};
use crate::kept::{applied, both, leaf, no_parts, with_part};
use check_rules::{Host, Packing, Typing, WrittenType, host_of};
use core_tree::{Op, SetOp};
use dice_base::NoMemory;
use std::alloc::Global;

/// No members yet. Takes no memory.
pub fn no_members(alloc: Global) -> KeptCollected
    ensures { result ≡ spec.kept_collected spec.no_members }
{
    KeptCollected {
        base: None,
        set: leaf(alloc, Op::Set(SetOp::Empty), None),
    }
}

fn base_after(table: &[WrittenType], base: Option<Host>, typing: Typing) -> Option<Host>
    ensures { result ≡ spec.base_after table.now base typing }
{
    match base {
        Some(host) => Some(host),
        None => host_of(table, typing),
    }
}

/// One more member.
pub fn with_first(
    alloc: Global,
    table: &[WrittenType],
    collected: KeptCollected,
    member: KeptNode,
) -> Result<KeptCollected, NoMemory>
    ensures { (x : spec.Collected) (a : spec.Node) → collected ≡ spec.kept_collected x → member ≡ spec.kept_node a
        → IfOk result (λ r. r ≡ spec.kept_collected (spec.with_member table.now x (a, None))) }
{
    let base = base_after(table, collected.base, member.typing);
    let set = both(
        alloc,
        Op::Set(SetOp::Include),
        None,
        collected.set,
        member.kept,
    )?;
    Ok(KeptCollected { base, set })
}

/// All members from a first to a last one.
#[tactic(auto, using(crate::proofs::Keeping::kept_applied, crate::proofs::Keeping::kept_with_part))]
pub fn with_range(
    alloc: Global,
    table: &[WrittenType],
    collected: KeptCollected,
    first: KeptNode,
    last: KeptNode,
) -> Result<KeptCollected, NoMemory>
    ensures { (x : spec.Collected) (a b : spec.Node) → collected ≡ spec.kept_collected x → first ≡ spec.kept_node a
        → last ≡ spec.kept_node b → IfOk result (λ r. r ≡ spec.kept_collected (spec.with_member table.now x (a, Some b))) }
{
    let base = base_after(table, collected.base, first.typing);
    let base = base_after(table, base, last.typing);
    let parts = with_part(no_parts(alloc), collected.set)?;
    let parts = with_part(parts, first.kept)?;
    let parts = with_part(parts, last.kept)?;
    let set = applied(Op::Set(SetOp::IncludeRange), None, parts);
    Ok(KeptCollected { base, set })
}

fn type_of_base(base: Option<Host>) -> Typing
    ensures { result ≡ values.set_of_base base }
{
    match base {
        Some(host) => Typing::CanonicalSet(host, Packing::Either),
        None => Typing::Unknown,
    }
}

/// The set of these members. Takes no memory.
pub fn set_of_members(empty: bool, collected: KeptCollected) -> KeptNode
    ensures { (x : spec.Collected) → collected ≡ spec.kept_collected x
        → result ≡ spec.kept_node (spec.set_node_of empty x) }
{
    let typing = if empty {
        Typing::EmptySet
    } else {
        type_of_base(collected.base)
    };
    KeptNode {
        typing,
        kept: collected.set,
    }
}
