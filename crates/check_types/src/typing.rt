//! Whole types.
ghost use Rattle.std.specs.Prelude.{◌≡◌, ◌++◌, ◌∷◌, [], map, IfOk};
ghost use Rattle.check_types.specs.TypeRules as spec;
ghost use Rattle.check_types.specs.TypeTexts as folds;

use crate::state::{RecordWalk, TypeState, Typed};
use crate::types::{
    arrays_of, domain_for, enumeration, idents_of, judged_field, ordinal, pointer_to, record_of,
    set_over, subrange, type_named,
};
use check_rules::{CLEAN, Region, Typing, entity_of, least, new_region};
use dice_base::NoMemory;
use pascal_tree::{FieldText, TypeText};
use sqlite_items::Items;
use std::alloc::Global;

/// The types of the indexes of an array, and the least kind of fault.
#[derive(Drop)]
struct Indexes {
    types: Items<Typing>,
    kind: u8,
}

#[cycle(type_of)]
fn indexes_of(
    alloc: Global,
    outer: &[Region],
    around: &mut Items<Region>,
    state: &mut TypeState,
    shapes: &[TypeText],
) -> Result<Indexes, NoMemory>
    ensures value { IfOk result (λ r. spec.indexes_of state.new r.types r.kind ≡ spec.indexes_from around.old (spec.indexes_of state.old [] 12) (map (folds.type_of outer.now) shapes.now)) }
    ensures kept { IfOk result (λ r. around.new ≡ around.old) }
{
    let mut types = Items::new(alloc);
    let mut kind = CLEAN;
    for shape in shapes {
        let judged = type_of(alloc, outer, around, state, shape)?;
        let judged = ordinal(state, judged);
        types.push(judged.typing)?;
        kind = least(kind, judged.kind);
    }
    Ok(Indexes { types, kind })
}

// The array over these indexes.
fn array_over(
    state: &mut TypeState,
    packed: bool,
    indexes: Indexes,
    component: Typed,
) -> Result<Typed, NoMemory>
    ensures { IfOk result (λ r. spec.judgement state.new r.typing r.kind ≡ spec.array_of_indexes packed (spec.indexes_of state.old indexes.types indexes.kind) (spec.judgement state.old component.typing component.kind)) }
{
    let Indexes { types, kind } = indexes;
    let inner = Typed {
        typing: component.typing,
        kind: least(kind, component.kind),
    };
    arrays_of(state, packed, types, inner)
}

#[cycle(type_of)]
#[tactic(auto, using(std::proofs::lemmas::List::append_cancel_right), unfolding(crate::specs::TypeTexts::type_of, crate::specs::TypeTexts::field_of))]
fn with_field(
    alloc: Global,
    outer: &[Region],
    around: &mut Items<Region>,
    state: &mut TypeState,
    packed: bool,
    walk: RecordWalk,
    field: &FieldText,
) -> Result<RecordWalk, NoMemory>
    ensures value { IfOk result (λ w. spec.fields_of state.new w ≡ spec.fields_with around.old packed (spec.fields_of state.old walk) (folds.field_of outer.now field.now)) }
    ensures kept { IfOk result (λ w. around.new ≡ around.old) }
{
    let RecordWalk {
        own,
        parts,
        words,
        known,
        kind,
    } = walk;
    around.push(own)?;
    let judged = type_of(alloc, outer, around, state, &field.shape)?;
    let Some(own) = around.pop() else {
        return Err(NoMemory);
    };
    let walk = RecordWalk {
        own,
        parts,
        words,
        known,
        kind,
    };
    judged_field(alloc, state, packed, field.idents.as_slice(), walk, judged)
}

#[cycle(type_of)]
fn fields_from(
    alloc: Global,
    outer: &[Region],
    around: &mut Items<Region>,
    state: &mut TypeState,
    packed: bool,
    walk: RecordWalk,
    fields: &[FieldText],
) -> Result<RecordWalk, NoMemory>
    ensures value { IfOk result (λ w. spec.fields_of state.new w ≡ spec.fields_from around.old packed (spec.fields_of state.old walk) (map (folds.field_of outer.now) fields.now)) }
    ensures kept { IfOk result (λ w. around.new ≡ around.old) }
{
    let mut so_far = walk;
    for field in fields {
        so_far = with_field(alloc, outer, around, state, packed, so_far, field)?;
    }
    Ok(so_far)
}

#[cycle(type_of)]
fn record_over(
    alloc: Global,
    outer: &[Region],
    around: &mut Items<Region>,
    state: &mut TypeState,
    packed: bool,
    fields: &[FieldText],
) -> Result<Typed, NoMemory>
    ensures value { IfOk result (λ r. spec.judgement state.new r.typing r.kind ≡ spec.record_type around.old packed (map (folds.field_of outer.now) fields.now) state.old) }
    ensures kept { IfOk result (λ r. around.new ≡ around.old) }
{
    let idents = idents_of(alloc, outer, fields)?;
    let walk = RecordWalk {
        own: new_region(alloc, idents),
        parts: Items::new(alloc),
        words: 0,
        known: true,
        kind: CLEAN,
    };
    let walk = fields_from(alloc, outer, around, state, packed, walk, fields)?;
    record_of(state, packed, walk)
}

/// A type that is written in a block, with these regions outside the block and those of the records around it.
#[cycle(type_of)]
#[tactic(auto, unfolding(crate::specs::TypeTexts::type_of, crate::specs::TypeTexts::field_of))]
pub fn type_of(
    alloc: Global,
    outer: &[Region],
    around: &mut Items<Region>,
    state: &mut TypeState,
    text: &TypeText,
) -> Result<Typed, NoMemory>
    ensures value { IfOk result (λ r. spec.judgement state.new r.typing r.kind ≡ folds.type_of outer.now text.now around.old state.old) }
    ensures kept { IfOk result (λ r. around.new ≡ around.old) }
{
    match text {
        TypeText::Named(ident) => {
            let entity = entity_of(outer, &state.block, around.as_slice(), ident.bytes());
            Ok(type_named(entity))
        }
        TypeText::Enumeration(idents) => enumeration(alloc, state, idents.as_slice()),
        TypeText::Range(first, last) => {
            subrange(alloc, outer, around.as_slice(), state, first, last)
        }
        TypeText::Pointer(ident) => {
            let domain = domain_for(outer, &state.block, around.as_slice(), ident.bytes());
            pointer_to(state, domain)
        }
        TypeText::Array(packed, shapes, component) => {
            let indexes = indexes_of(alloc, outer, around, state, shapes.as_slice())?;
            let inner = type_of(alloc, outer, around, state, component.get())?;
            array_over(state, *packed, indexes, inner)
        }
        TypeText::SetOf(packed, base) => {
            let base = type_of(alloc, outer, around, state, base.get())?;
            let base = ordinal(state, base);
            set_over(state, *packed, base)
        }
        TypeText::RecordOf(packed, fields) => {
            record_over(alloc, outer, around, state, *packed, fields.as_slice())
        }
    }
}
