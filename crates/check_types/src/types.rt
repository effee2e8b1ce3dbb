//! Types as they are written.
ghost use Rattle.std.specs.Prelude.{◌≡◌, ◌≤◌, ◌+◌, ◌++◌, ◌∷◌, [], min, map, IfOk};
ghost use Rattle.check_rules.specs.Typing as rules;
ghost use Rattle.std.specs.Option.{option_copied};
ghost use Rattle.check_types.specs.TypeRules as spec;
ghost use Rattle.check_types.specs.TypeTexts as folds;
ghost use Rattle.check_rules.specs.Regions as regions;
ghost use Rattle.check_types.specs.Constants as constants;

use crate::constants::{constant_of, number_in};
use crate::state::{RecordWalk, TypeState, Typed};
use check_rules::{
    CLEAN, Constant, Domain, Entity, Field, FieldType, Host, JudgedConstant, MAX_COUNTED,
    MAX_TYPE_WORDS, Region, Structure, TOO_LARGE, Typing, UNKNOWN, WRONG_CLASS, WRONG_CONSTANT,
    WRONG_TYPE, WrittenType, are_compatible_ordinals, bounds_of, declare, entity_in, has_ident,
    host_of, kind_unless, least, words_of,
};
use dice_base::{Name, NoMemory, Text};
use pascal_tree::{Constant as WrittenConstant, FieldText};
use sqlite_items::Items;
use std::alloc::Global;

// One more type of the table, of at most 4,096 words.
fn written(
    state: &mut TypeState,
    structure: Structure,
    words: u32,
    kind: u8,
) -> Result<Typed, NoMemory>
    ensures { IfOk result (λ r. spec.judgement state.new r.typing r.kind ≡ spec.written_type state.old structure words kind) }
{
    let number = state.table.len();
    if number >= 4_294_967_296 {
        return Err(NoMemory);
    }
    state.table.push(WrittenType { structure, words })?;
    let large = if words <= MAX_TYPE_WORDS {
        CLEAN
    } else {
        TOO_LARGE
    };
    Ok(Typed {
        typing: Typing::Written(number as u32),
        kind: least(kind, large),
    })
}

/// The type that an identifier names.
pub fn type_named(entity: Option<&Entity>) -> Typed
    ensures { (result.typing, result.kind) ≡ spec.type_of_entity (option_copied entity.entry) }
{
    match entity {
        None => Typed {
            typing: Typing::Unknown,
            kind: UNKNOWN,
        },
        Some(Entity::TypeOf(typing, _)) => Typed {
            typing: *typing,
            kind: CLEAN,
        },
        Some(_) => Typed {
            typing: Typing::Unknown,
            kind: WRONG_CLASS,
        },
    }
}

// The next number, counted up to a limit.
fn after(number: u32) -> u32
    ensures { result ≡ min MAX_COUNTED (number + 1) }
{
    if number < MAX_COUNTED {
        number + 1
    } else {
        MAX_COUNTED
    }
}

fn declare_from(
    alloc: Global,
    block: &mut Region,
    typing: Typing,
    idents: &[Text],
) -> Result<u8, NoMemory>
    ensures { IfOk result (λ kind. (block.new, kind) ≡ spec.region_with_constants typing 0 idents.now (block.old, 12)) }
{
    let mut number: u32 = 0;
    let mut kind = CLEAN;
    for ident in idents {
        let entity = Entity::ConstantOf(Constant::Number(number as i32), typing);
        let one = declare(alloc, block, ident, entity)?;
        kind = least(kind, one);
        number = after(number);
    }
    Ok(kind)
}

fn copy_texts(alloc: Global, idents: &[Text]) -> Result<Items<Text>, NoMemory>
    ensures { IfOk result (λ all. all ≡ idents.now) }
{
    let mut all = Items::new(alloc);
    for ident in idents {
        all.push(ident.copy(alloc)?)?;
    }
    Ok(all)
}

/// An enumeration, whose identifiers are declared in the region of the block (6.4.2.3).
pub fn enumeration(alloc: Global, state: &mut TypeState, idents: &[Text]) -> Result<Typed, NoMemory>
    ensures { IfOk result (λ r. spec.judgement state.new r.typing r.kind ≡ spec.enumeration state.old idents.now) }
{
    let number = state.table.len();
    if number >= 4_294_967_296 {
        return Err(NoMemory);
    }
    let typing = Typing::Ordinal(Host::Enumeration(number as u32));
    let copied = copy_texts(alloc, idents)?;
    state.table.push(WrittenType {
        structure: Structure::Enumeration(copied),
        words: 1,
    })?;
    let kind = declare_from(alloc, &mut state.block, typing, idents)?;
    Ok(Typed { typing, kind })
}

fn subrange_on(
    state: &mut TypeState,
    host: Option<Host>,
    first: i32,
    last: i32,
    kind: u8,
) -> Result<Typed, NoMemory>
    ensures { IfOk result (λ r. spec.judgement state.new r.typing r.kind ≡ spec.subrange_of_host state.old host first last kind) }
{
    match host {
        None => Ok(Typed {
            typing: Typing::Unknown,
            kind: least(kind, WRONG_TYPE),
        }),
        Some(host) => {
            if first <= last {
                written(state, Structure::Subrange(host, first, last), 1, kind)
            } else {
                Ok(Typed {
                    typing: Typing::Unknown,
                    kind: least(kind, WRONG_CONSTANT),
                })
            }
        }
    }
}

fn meeting_host(table: &[WrittenType], a: Typing, b: Typing) -> Option<Host>
    ensures { result ≡ spec.common_host table.now a b }
{
    if are_compatible_ordinals(table, a, b) {
        host_of(table, a)
    } else {
        None
    }
}

fn known_subrange(
    state: &mut TypeState,
    a: &JudgedConstant,
    b: &JudgedConstant,
) -> Result<Typed, NoMemory>
    ensures { IfOk result (λ r. spec.judgement state.new r.typing r.kind ≡ spec.subrange_of_types state.old a.now b.now a.now.typing b.now.typing) }
{
    let kind = least(a.kind, b.kind);
    match (a.typing, b.typing) {
        (Typing::Unknown, _) => Ok(Typed {
            typing: Typing::Unknown,
            kind,
        }),
        (_, Typing::Unknown) => Ok(Typed {
            typing: Typing::Unknown,
            kind,
        }),
        (first, last) => {
            let host = meeting_host(state.table.as_slice(), first, last);
            subrange_on(state, host, number_in(&a.value), number_in(&b.value), kind)
        }
    }
}

fn constant_in(
    alloc: Global,
    outer: &[Region],
    fields: &[Region],
    state: &TypeState,
    constant: &WrittenConstant,
) -> Result<JudgedConstant, NoMemory>
    ensures { IfOk result (λ c. c ≡ constants.constant_of state.now.table (spec.scope outer.now state.now fields.now) constant.now) }
{
    constant_of(
        alloc,
        state.table.as_slice(),
        outer,
        &state.block,
        fields,
        constant,
    )
}

/// A subrange from a first to a last constant (6.4.2.4).
pub fn subrange(
    alloc: Global,
    outer: &[Region],
    fields: &[Region],
    state: &mut TypeState,
    first: &WrittenConstant,
    last: &WrittenConstant,
) -> Result<Typed, NoMemory>
    ensures { IfOk result (λ r. spec.judgement state.new r.typing r.kind ≡ spec.subrange state.old (spec.scope outer.now state.old fields.now) first.now last.now) }
{
    let a = constant_in(alloc, outer, fields, state, first)?;
    let b = constant_in(alloc, outer, fields, state, last)?;
    known_subrange(state, &a, &b)
}

// A type that must be ordinal.
pub fn ordinal(state: &TypeState, t: Typed) -> Typed
    ensures { spec.judgement state.now result.typing result.kind ≡ spec.ordinal_type (spec.judgement state.now t.typing t.kind) }
{
    match t.typing {
        Typing::Unknown => t,
        typing => match host_of(state.table.as_slice(), typing) {
            Some(_) => t,
            None => Typed {
                typing: Typing::Unknown,
                kind: least(t.kind, WRONG_TYPE),
            },
        },
    }
}

fn is_set_range(bounds: (i32, i32)) -> bool
    ensures { result ≡ spec.is_set_range bounds }
{
    0 <= bounds.0 && bounds.1 <= 127
}

/// A set of a base type (6.4.3.4).
pub fn set_over(state: &mut TypeState, packed: bool, base: Typed) -> Result<Typed, NoMemory>
    ensures { IfOk result (λ r. spec.judgement state.new r.typing r.kind ≡ spec.set_type packed (spec.judgement state.old base.typing base.kind)) }
{
    match base.typing {
        Typing::Unknown => Ok(base),
        typing => {
            let wide = if is_set_range(bounds_of(state.table.as_slice(), typing)) {
                CLEAN
            } else {
                WRONG_CONSTANT
            };
            written(
                state,
                Structure::SetOf(packed, typing),
                8,
                least(base.kind, wide),
            )
        }
    }
}

fn values_between(bounds: (i32, i32)) -> u64
    ensures value { result ≡ rules.values_between bounds }
    ensures within { result ≤ 4294967296 }
{
    (bounds.1 as i64 - bounds.0 as i64).unsigned_abs() + 1
}

/// The words of an array.
fn array_words(table: &[WrittenType], index: Typing, component: Typing) -> u32
    ensures { result ≡ spec.array_words table.now index component }
{
    let values = values_between(bounds_of(table, index));
    let words = values as u128 * words_of(table, component) as u128;
    if words < MAX_COUNTED as u128 {
        words as u32
    } else {
        MAX_COUNTED
    }
}

fn array_known(
    state: &mut TypeState,
    packed: bool,
    index: Typing,
    component: Typed,
) -> Result<Typed, NoMemory>
    ensures { IfOk result (λ r. spec.judgement state.new r.typing r.kind ≡ spec.array_of_types packed index (spec.judgement state.old component.typing component.kind) component.typing) }
{
    match (index, component.typing) {
        (Typing::Unknown, _) => Ok(Typed {
            typing: Typing::Unknown,
            kind: component.kind,
        }),
        (_, Typing::Unknown) => Ok(Typed {
            typing: Typing::Unknown,
            kind: component.kind,
        }),
        (index, typing) => {
            let words = array_words(state.table.as_slice(), index, typing);
            written(
                state,
                Structure::ArrayOf(packed, index, typing),
                words,
                component.kind,
            )
        }
    }
}

// An array of some indexes, made from the last one on.
#[tactic(auto, using(crate::proofs::Later::arrays_snoc))]
pub fn arrays_of(
    state: &mut TypeState,
    packed: bool,
    types: Items<Typing>,
    component: Typed,
) -> Result<Typed, NoMemory>
    ensures { IfOk result (λ r. spec.judgement state.new r.typing r.kind ≡ spec.arrays_of packed types (spec.judgement state.old component.typing component.kind)) }
{
    let mut left = types;
    let mut made = component;
    while let Some(index) = left.pop() {
        made = array_known(state, packed, index, made)?;
    }
    Ok(made)
}

fn named_in(types: &[(Text, Name)], ident: &[u8]) -> Option<Name>
    ensures { result ≡ spec.named_in types.now ident.now }
{
    for (other, name) in types {
        if other.bytes() == ident {
            return Some(*name);
        }
    }
    None
}

fn domain_named(entity: &Entity) -> (Option<Domain>, u8)
    ensures { result ≡ spec.domain_named entity.now }
{
    match entity {
        Entity::TypeOf(_, Some(name)) => (Some(Domain::Declared(*name)), CLEAN),
        Entity::TypeOf(Typing::Ordinal(host), None) => (Some(Domain::Predeclared(*host)), CLEAN),
        _ => (None, WRONG_CLASS),
    }
}

fn pointed(region: &Region, ident: &[u8], outer: (Option<Domain>, u8)) -> (Option<Domain>, u8)
    ensures { result ≡ spec.domain_through region.now ident.now outer }
{
    if let Some(entity) = entity_in(region.declared.as_slice(), ident) {
        return domain_named(entity);
    }
    if let Some(name) = named_in(region.types.as_slice(), ident) {
        return (Some(Domain::Declared(name)), CLEAN);
    }
    if has_ident(region.constants.as_slice(), ident) {
        return (None, WRONG_CLASS);
    }
    if has_ident(region.later.as_slice(), ident) {
        return (None, UNKNOWN);
    }
    outer
}

fn domain_from(
    outer: (Option<Domain>, u8),
    regions: &[Region],
    ident: &[u8],
) -> (Option<Domain>, u8)
    ensures { result ≡ spec.domain_within outer regions.now ident.now }
{
    let mut found = outer;
    for region in regions {
        found = pointed(region, ident, found);
    }
    found
}

#[tactic(auto, using(crate::proofs::Later::domain_append))]
pub fn domain_for(
    outer: &[Region],
    block: &Region,
    fields: &[Region],
    ident: &[u8],
) -> (Option<Domain>, u8)
    ensures { result ≡ spec.domain_for (outer.now ++ block.now ∷ fields.now) ident.now }
{
    let found = domain_from((None, UNKNOWN), outer, ident);
    let found = pointed(block, ident, found);
    domain_from(found, fields, ident)
}

/// A pointer to a domain (6.4.4).
pub fn pointer_to(state: &mut TypeState, domain: (Option<Domain>, u8)) -> Result<Typed, NoMemory>
    ensures { IfOk result (λ r. spec.judgement state.new r.typing r.kind ≡ spec.pointer_type state.old domain) }
{
    match domain {
        (None, kind) => Ok(Typed {
            typing: Typing::Unknown,
            kind,
        }),
        (Some(domain), kind) => written(state, Structure::Pointer(domain), 1, kind),
    }
}

fn one_field(
    alloc: Global,
    table: &[WrittenType],
    packed: bool,
    typing: Typing,
    ident: &Text,
    walk: RecordWalk,
) -> Result<RecordWalk, NoMemory>
    ensures { IfOk result (λ w. w ≡ spec.walk_with_field packed typing ident.now table.now walk (regions.declare walk.own ident.now (spec.field_entity typing walk.words packed))) }
{
    let RecordWalk {
        mut own,
        mut parts,
        words,
        known,
        kind,
    } = walk;
    let entity = Entity::FieldOf(Field {
        typing,
        offset: words,
        hold: 0,
        packed,
    });
    let twice = declare(alloc, &mut own, ident, entity)?;
    let copied = ident.copy(alloc)?;
    parts.push(FieldType {
        ident: copied,
        typing,
        offset: words,
    })?;
    let sum = words as u64 + words_of(table, typing) as u64;
    let words = if sum < MAX_COUNTED as u64 {
        sum as u32
    } else {
        MAX_COUNTED
    };
    Ok(RecordWalk {
        own,
        parts,
        words,
        known,
        kind: least(kind, twice),
    })
}

fn with_fields(
    alloc: Global,
    table: &[WrittenType],
    packed: bool,
    typing: Typing,
    idents: &[Text],
    walk: RecordWalk,
) -> Result<RecordWalk, NoMemory>
    ensures { IfOk result (λ w. w ≡ spec.walk_with_fields packed typing table.now idents.now walk) }
{
    let mut so_far = walk;
    for ident in idents {
        so_far = one_field(alloc, table, packed, typing, ident, so_far)?;
    }
    Ok(so_far)
}

fn is_known(typing: Typing) -> bool
    ensures { result ≡ spec.is_known typing }
{
    match typing {
        Typing::Unknown => false,
        _ => true,
    }
}

/// Adds fields of one type to a record (6.4.3.3).
pub fn judged_field(
    alloc: Global,
    state: &TypeState,
    packed: bool,
    idents: &[Text],
    walk: RecordWalk,
    field: Typed,
) -> Result<RecordWalk, NoMemory>
    ensures { IfOk result (λ w. spec.fields_of state.now w ≡ spec.fields_after packed idents.now walk (spec.judgement state.now field.typing field.kind)) }
{
    let RecordWalk {
        own,
        parts,
        words,
        known,
        kind,
    } = walk;
    let walk = RecordWalk {
        own,
        parts,
        words,
        known: known && is_known(field.typing),
        kind: least(kind, field.kind),
    };
    with_fields(
        alloc,
        state.table.as_slice(),
        packed,
        field.typing,
        idents,
        walk,
    )
}

#[tactic(auto, unfolding(crate::specs::TypeTexts::field_of))]
pub fn idents_of(
    alloc: Global,
    outer: &[Region],
    fields: &[FieldText],
) -> Result<Items<Text>, NoMemory>
    ensures { IfOk result (λ all. all ≡ spec.idents_of (map (folds.field_of outer.now) fields.now)) }
{
    let mut all = Items::new(alloc);
    for field in fields {
        let idents = copy_texts(alloc, field.idents.as_slice())?;
        all.append(idents)?;
    }
    Ok(all)
}

/// The record of these fields.
pub fn record_of(state: &mut TypeState, packed: bool, walk: RecordWalk) -> Result<Typed, NoMemory>
    ensures { IfOk result (λ r. spec.judgement state.new r.typing r.kind ≡ spec.record_of packed (spec.fields_of state.old walk)) }
{
    let RecordWalk {
        parts,
        words,
        known,
        kind,
        ..
    } = walk;
    if known {
        written(state, Structure::RecordOf(packed, parts), words, kind)
    } else {
        Ok(Typed {
            typing: Typing::Unknown,
            kind,
        })
    }
}
