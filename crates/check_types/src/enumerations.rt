//! The enumeration constants that a written type declares (ISO 7185:1990, 6.4.2.3).
ghost use Rattle.std.specs.Prelude.{◌≡◌, ◌++◌, map, OnOk};
ghost use Rattle.check_types.specs.TypeRules as spec;
ghost use Rattle.check_types.specs.TypeTexts as folds;

use dice_base::{NoMemory, Text};
use pascal_tree::{FieldText, TypeText, copy_texts};
use sqlite_items::Items;
use std::alloc::Global;

#[cycle(push_constants)]
fn push_all(alloc: Global, shapes: &[TypeText], out: &mut Items<Text>) -> Result<(), NoMemory>
    ensures { OnOk result (out.new ≡ out.old ++ spec.all_idents (map folds.constants_of shapes.now)) }
{
    for shape in shapes {
        push_constants(alloc, shape, out)?;
    }
    Ok(())
}

#[cycle(push_constants)]
#[tactic(auto, unfolding(crate::specs::TypeTexts::constants_of, crate::specs::TypeTexts::field_constants_of))]
fn push_field(alloc: Global, field: &FieldText, out: &mut Items<Text>) -> Result<(), NoMemory>
    ensures { OnOk result (out.new ≡ out.old ++ folds.field_constants_of field.now) }
{
    push_constants(alloc, &field.shape, out)
}

#[cycle(push_constants)]
fn push_fields(alloc: Global, fields: &[FieldText], out: &mut Items<Text>) -> Result<(), NoMemory>
    ensures { OnOk result (out.new ≡ out.old ++ spec.all_idents (map folds.field_constants_of fields.now)) }
{
    for field in fields {
        push_field(alloc, field, out)?;
    }
    Ok(())
}

/// Adds the enumeration constants of a type, in the order of the text.
#[cycle(push_constants)]
#[tactic(auto, unfolding(crate::specs::TypeTexts::constants_of, crate::specs::TypeTexts::field_constants_of))]
pub fn push_constants(alloc: Global, text: &TypeText, out: &mut Items<Text>) -> Result<(), NoMemory>
    ensures { OnOk result (out.new ≡ out.old ++ folds.constants_of text.now) }
{
    match text {
        TypeText::Enumeration(idents) => {
            let idents = copy_texts(alloc, idents.as_slice())?;
            out.append(idents)?;
            Ok(())
        }
        TypeText::Array(_, shapes, component) => {
            push_all(alloc, shapes.as_slice(), out)?;
            push_constants(alloc, component.get(), out)
        }
        TypeText::SetOf(_, base) => push_constants(alloc, base.get(), out),
        TypeText::RecordOf(_, fields) => push_fields(alloc, fields.as_slice(), out),
        _ => Ok(()),
    }
}
