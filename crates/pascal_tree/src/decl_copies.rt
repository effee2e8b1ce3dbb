//! Exact copies of types and declarations.
ghost use Rattle.std.specs.Prelude.{◌≡◌, IfOk};

use crate::{Constant, DeclKind, FieldText, Heading, Section, TypeText};
use dice_base::{NoMemory, Text};
use sqlite_items::{Boxed, Items};
use std::alloc::Global;

/// A copy of a list of identifiers.
pub fn copy_texts(alloc: Global, texts: &[Text]) -> Result<Items<Text>, NoMemory>
    ensures { IfOk result (λ all. all ≡ texts.now) }
{
    let mut all = Items::new(alloc);
    for text in texts {
        all.push(text.copy(alloc)?)?;
    }
    Ok(all)
}

/// A copy of a constant.
pub fn copy_constant(alloc: Global, constant: &Constant) -> Result<Constant, NoMemory>
    ensures { IfOk result (λ x. x ≡ constant.now) }
{
    match constant {
        Constant::Number(prefix, n) => Ok(Constant::Number(*prefix, *n)),
        Constant::Named(prefix, ident) => {
            let ident = ident.copy(alloc)?;
            Ok(Constant::Named(*prefix, ident))
        }
        Constant::Str(text) => {
            let text = text.copy(alloc)?;
            Ok(Constant::Str(text))
        }
    }
}

/// A copy of a type.
#[cycle(copy_type)]
pub fn copy_type(alloc: Global, shape: &TypeText) -> Result<TypeText, NoMemory>
    ensures { IfOk result (λ x. x ≡ shape.now) }
{
    match shape {
        TypeText::Named(ident) => {
            let ident = ident.copy(alloc)?;
            Ok(TypeText::Named(ident))
        }
        TypeText::Enumeration(idents) => {
            let idents = copy_texts(alloc, idents.as_slice())?;
            Ok(TypeText::Enumeration(idents))
        }
        TypeText::Range(first, last) => {
            let first = copy_constant(alloc, first)?;
            let last = copy_constant(alloc, last)?;
            Ok(TypeText::Range(first, last))
        }
        TypeText::Pointer(ident) => {
            let ident = ident.copy(alloc)?;
            Ok(TypeText::Pointer(ident))
        }
        TypeText::Array(packed, indexes, component) => {
            let indexes = copy_types(alloc, indexes.as_slice())?;
            let component = copy_type(alloc, component.get())?;
            let component = Boxed::new(alloc, component)?;
            Ok(TypeText::Array(*packed, indexes, component))
        }
        TypeText::SetOf(packed, base) => {
            let base = copy_type(alloc, base.get())?;
            let base = Boxed::new(alloc, base)?;
            Ok(TypeText::SetOf(*packed, base))
        }
        TypeText::RecordOf(packed, fields) => {
            let fields = copy_fields(alloc, fields.as_slice())?;
            Ok(TypeText::RecordOf(*packed, fields))
        }
    }
}

#[cycle(copy_type)]
fn copy_types(alloc: Global, shapes: &[TypeText]) -> Result<Items<TypeText>, NoMemory>
    ensures { IfOk result (λ all. all ≡ shapes.now) }
{
    let mut all = Items::new(alloc);
    for shape in shapes {
        all.push(copy_type(alloc, shape)?)?;
    }
    Ok(all)
}

#[cycle(copy_type)]
fn copy_fields(alloc: Global, fields: &[FieldText]) -> Result<Items<FieldText>, NoMemory>
    ensures { IfOk result (λ all. all ≡ fields.now) }
{
    let mut all = Items::new(alloc);
    for field in fields {
        all.push(copy_field(alloc, field)?)?;
    }
    Ok(all)
}

#[cycle(copy_type)]
fn copy_field(alloc: Global, field: &FieldText) -> Result<FieldText, NoMemory>
    ensures { IfOk result (λ x. x ≡ field.now) }
{
    let idents = copy_texts(alloc, field.idents.as_slice())?;
    let shape = copy_type(alloc, &field.shape)?;
    Ok(FieldText { idents, shape })
}

/// A copy of what a declaration says.
pub fn copy_decl_kind(alloc: Global, kind: &DeclKind) -> Result<DeclKind, NoMemory>
    ensures { IfOk result (λ x. x ≡ kind.now) }
{
    match kind {
        DeclKind::LabelDecl(labels) => {
            let labels = Items::from_slice(alloc, labels.as_slice())?;
            Ok(DeclKind::LabelDecl(labels))
        }
        DeclKind::ConstDecl(ident, constant) => {
            let ident = ident.copy(alloc)?;
            let constant = copy_constant(alloc, constant)?;
            Ok(DeclKind::ConstDecl(ident, constant))
        }
        DeclKind::TypeDecl(ident, shape) => {
            let ident = ident.copy(alloc)?;
            let shape = copy_type(alloc, shape)?;
            Ok(DeclKind::TypeDecl(ident, shape))
        }
        DeclKind::VarDecl(idents, shape) => {
            let idents = copy_texts(alloc, idents.as_slice())?;
            let shape = copy_type(alloc, shape)?;
            Ok(DeclKind::VarDecl(idents, shape))
        }
    }
}

fn copy_sections(alloc: Global, sections: &[Section]) -> Result<Items<Section>, NoMemory>
    ensures { IfOk result (λ all. all ≡ sections.now) }
{
    let mut all = Items::new(alloc);
    for section in sections {
        all.push(copy_section(alloc, section)?)?;
    }
    Ok(all)
}

fn copy_section(alloc: Global, section: &Section) -> Result<Section, NoMemory>
    ensures { IfOk result (λ x. x ≡ section.now) }
{
    let idents = copy_texts(alloc, section.idents.as_slice())?;
    let shape = section.shape.copy(alloc)?;
    Ok(Section {
        by_place: section.by_place,
        idents,
        shape,
    })
}

/// A copy of a heading.
pub fn copy_heading(alloc: Global, heading: &Heading) -> Result<Heading, NoMemory>
    ensures { IfOk result (λ x. x ≡ heading.now) }
{
    let ident = heading.ident.copy(alloc)?;
    let sections = copy_sections(alloc, heading.sections.as_slice())?;
    let function = heading.function;
    match &heading.result {
        None => Ok(Heading {
            function,
            ident,
            sections,
            result: None,
        }),
        Some(result) => {
            let result = result.copy(alloc)?;
            Ok(Heading {
                function,
                ident,
                sections,
                result: Some(result),
            })
        }
    }
}

/// A copy of a list of constants.
pub fn copy_constants(alloc: Global, constants: &[Constant]) -> Result<Items<Constant>, NoMemory>
    ensures { IfOk result (λ all. all ≡ constants.now) }
{
    let mut all = Items::new(alloc);
    for constant in constants {
        all.push(copy_constant(alloc, constant)?)?;
    }
    Ok(all)
}
