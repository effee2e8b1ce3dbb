//! Constants, types, declarations and headings as tokens.
ghost use Rattle.std.specs.Prelude.{◌≡◌, ◌++◌, ◌∷◌, [], map, OnOk};
ghost use Rattle.dice_base.specs.Symbols.{semicolon_sign};
ghost use Rattle.pascal_tree.specs.Joined.{join};
ghost use Rattle.pascal_tree.specs.ExprTokens.{comma_list, in_brackets, in_parens};
ghost use Rattle.pascal_tree.specs.DeclTokens as spec;

use crate::expressions::push_prefix;
use crate::tokens::{push_ident, push_number, push_sign, push_str, push_word, separate};
use dice_base::{NoMemory, Text, TokenKind, signs, words};
use pascal_tree::{Constant, DeclKind, FieldText, Heading, Section, TypeText};
use std::alloc::Global;

/// Adds identifiers, with commas between.
#[tactic(auto, using(crate::proofs::Rest::still_step, crate::proofs::Rest::still_end), unfolding(pascal_tree::specs::DeclTokens::idents_tokens))]
pub fn push_idents(alloc: Global, idents: &[Text], out: &mut Vec<TokenKind>) -> Result<(), NoMemory>
    ensures { OnOk result (out.new.items ≡ out.old.items ++ spec.idents_tokens idents.now) }
{
    let mut first = true;
    for ident in idents {
        separate(signs::COMMA, first, out)?;
        push_ident(alloc, ident, out)?;
        first = false;
    }
    Ok(())
}

/// Adds the tokens of a constant.
#[tactic(auto, unfolding(pascal_tree::specs::DeclTokens::constant_tokens))]
pub fn push_constant(
    alloc: Global,
    constant: &Constant,
    out: &mut Vec<TokenKind>,
) -> Result<(), NoMemory>
    ensures { OnOk result (out.new.items ≡ out.old.items ++ spec.constant_tokens constant.now) }
{
    match constant {
        Constant::Number(prefix, number) => {
            push_prefix(*prefix, out)?;
            push_number(*number, out)
        }
        Constant::Named(prefix, ident) => {
            push_prefix(*prefix, out)?;
            push_ident(alloc, ident, out)
        }
        Constant::Str(text) => push_str(alloc, text, out),
    }
}

/// Adds the tokens of constants, with commas between.
#[tactic(auto, using(crate::proofs::Rest::still_step, crate::proofs::Rest::still_end), unfolding(pascal_tree::specs::DeclTokens::constants_tokens))]
pub fn push_constants(
    alloc: Global,
    constants: &[Constant],
    out: &mut Vec<TokenKind>,
) -> Result<(), NoMemory>
    ensures { OnOk result (out.new.items ≡ out.old.items ++ spec.constants_tokens constants.now) }
{
    let mut first = true;
    for constant in constants {
        separate(signs::COMMA, first, out)?;
        push_constant(alloc, constant, out)?;
        first = false;
    }
    Ok(())
}

fn push_packed(packed: bool, out: &mut Vec<TokenKind>) -> Result<(), NoMemory>
    ensures { OnOk result (out.new.items ≡ out.old.items ++ spec.packed_tokens packed) }
{
    if packed {
        push_word(words::PACKED, out)
    } else {
        Ok(())
    }
}

/// Adds the tokens of a type.
#[cycle(push_type)]
#[tactic(auto, unfolding(pascal_tree::specs::DeclTokens::type_tokens, pascal_tree::specs::DeclTokens::field_tokens))]
pub fn push_type(alloc: Global, shape: &TypeText, out: &mut Vec<TokenKind>) -> Result<(), NoMemory>
    ensures { OnOk result (out.new.items ≡ out.old.items ++ spec.type_tokens shape.now) }
{
    match shape {
        TypeText::Named(ident) => push_ident(alloc, ident, out),
        TypeText::Enumeration(idents) => {
            push_sign(signs::OPEN, out)?;
            push_idents(alloc, idents.as_slice(), out)?;
            push_sign(signs::CLOSE, out)
        }
        TypeText::Range(first, last) => {
            push_constant(alloc, first, out)?;
            push_sign(signs::RANGE, out)?;
            push_constant(alloc, last, out)
        }
        TypeText::Pointer(ident) => {
            push_sign(signs::ARROW, out)?;
            push_ident(alloc, ident, out)
        }
        TypeText::Array(packed, indexes, component) => {
            push_packed(*packed, out)?;
            push_word(words::ARRAY, out)?;
            push_indexes(alloc, indexes.as_slice(), out)?;
            push_word(words::OF, out)?;
            push_type(alloc, component.get(), out)
        }
        TypeText::SetOf(packed, base) => {
            push_packed(*packed, out)?;
            push_word(words::SET, out)?;
            push_word(words::OF, out)?;
            push_type(alloc, base.get(), out)
        }
        TypeText::RecordOf(packed, fields) => {
            push_packed(*packed, out)?;
            push_word(words::RECORD, out)?;
            push_fields(alloc, fields.as_slice(), out)?;
            push_word(words::END, out)
        }
    }
}

#[cycle(push_type)]
fn push_indexes(
    alloc: Global,
    indexes: &[TypeText],
    out: &mut Vec<TokenKind>,
) -> Result<(), NoMemory>
    ensures { OnOk result (out.new.items ≡ out.old.items ++ in_brackets (map spec.type_tokens indexes.now)) }
{
    push_sign(signs::LEFT, out)?;
    push_types(alloc, indexes, out)?;
    push_sign(signs::RIGHT, out)
}

#[cycle(push_type)]
#[tactic(auto, using(crate::proofs::Rest::still_step, crate::proofs::Rest::still_end))]
fn push_types(alloc: Global, shapes: &[TypeText], out: &mut Vec<TokenKind>) -> Result<(), NoMemory>
    ensures { OnOk result (out.new.items ≡ out.old.items ++ comma_list (map spec.type_tokens shapes.now)) }
{
    let mut first = true;
    for shape in shapes {
        separate(signs::COMMA, first, out)?;
        push_type(alloc, shape, out)?;
        first = false;
    }
    Ok(())
}

#[cycle(push_type)]
#[tactic(auto, using(crate::proofs::Rest::still_step, crate::proofs::Rest::still_end))]
fn push_fields(
    alloc: Global,
    fields: &[FieldText],
    out: &mut Vec<TokenKind>,
) -> Result<(), NoMemory>
    ensures { OnOk result (out.new.items
        ≡ out.old.items ++ join (semicolon_sign ∷ []) (map spec.field_tokens fields.now)) }
{
    let mut first = true;
    for field in fields {
        separate(signs::SEMICOLON, first, out)?;
        push_field(alloc, field, out)?;
        first = false;
    }
    Ok(())
}

#[cycle(push_type)]
#[tactic(auto, unfolding(pascal_tree::specs::DeclTokens::type_tokens, pascal_tree::specs::DeclTokens::field_tokens))]
fn push_field(alloc: Global, field: &FieldText, out: &mut Vec<TokenKind>) -> Result<(), NoMemory>
    ensures { OnOk result (out.new.items ≡ out.old.items ++ spec.field_tokens field.now) }
{
    push_idents(alloc, field.idents.as_slice(), out)?;
    push_sign(signs::COLON, out)?;
    push_type(alloc, &field.shape, out)
}

#[tactic(auto, using(crate::proofs::Rest::still_step, crate::proofs::Rest::still_end))]
fn push_labels(labels: &[u16], out: &mut Vec<TokenKind>) -> Result<(), NoMemory>
    ensures { OnOk result (out.new.items ≡ out.old.items ++ comma_list (map spec.number_tokens labels.now)) }
{
    let mut first = true;
    for label in labels {
        separate(signs::COMMA, first, out)?;
        push_number(*label, out)?;
        first = false;
    }
    Ok(())
}

/// Adds the tokens of a declaration, without the word before the first and the semicolon behind it.
#[tactic(auto, unfolding(pascal_tree::specs::DeclTokens::decl_tokens))]
pub fn push_decl(alloc: Global, kind: &DeclKind, out: &mut Vec<TokenKind>) -> Result<(), NoMemory>
    ensures { OnOk result (out.new.items ≡ out.old.items ++ spec.decl_tokens kind.now) }
{
    match kind {
        DeclKind::LabelDecl(labels) => push_labels(labels.as_slice(), out),
        DeclKind::ConstDecl(ident, constant) => {
            push_ident(alloc, ident, out)?;
            push_sign(signs::EQUAL, out)?;
            push_constant(alloc, constant, out)
        }
        DeclKind::TypeDecl(ident, shape) => {
            push_ident(alloc, ident, out)?;
            push_sign(signs::EQUAL, out)?;
            push_type(alloc, shape, out)
        }
        DeclKind::VarDecl(idents, shape) => {
            push_idents(alloc, idents.as_slice(), out)?;
            push_sign(signs::COLON, out)?;
            push_type(alloc, shape, out)
        }
    }
}

fn push_by_place(by_place: bool, out: &mut Vec<TokenKind>) -> Result<(), NoMemory>
    ensures { OnOk result (out.new.items ≡ out.old.items ++ spec.var_tokens by_place) }
{
    if by_place {
        push_word(words::VAR, out)
    } else {
        Ok(())
    }
}

#[tactic(auto, unfolding(pascal_tree::specs::DeclTokens::section_tokens))]
fn push_section(alloc: Global, section: &Section, out: &mut Vec<TokenKind>) -> Result<(), NoMemory>
    ensures { OnOk result (out.new.items ≡ out.old.items ++ spec.section_tokens section.now) }
{
    push_by_place(section.by_place, out)?;
    push_idents(alloc, section.idents.as_slice(), out)?;
    push_sign(signs::COLON, out)?;
    push_ident(alloc, &section.shape, out)
}

#[tactic(auto, using(crate::proofs::Rest::still_step, crate::proofs::Rest::still_end))]
fn push_sections(
    alloc: Global,
    sections: &[Section],
    out: &mut Vec<TokenKind>,
) -> Result<(), NoMemory>
    ensures { OnOk result (out.new.items
        ≡ out.old.items ++ join (semicolon_sign ∷ []) (map spec.section_tokens sections.now)) }
{
    let mut first = true;
    for section in sections {
        separate(signs::SEMICOLON, first, out)?;
        push_section(alloc, section, out)?;
        first = false;
    }
    Ok(())
}

fn push_params(
    alloc: Global,
    sections: &[Section],
    out: &mut Vec<TokenKind>,
) -> Result<(), NoMemory>
    ensures { OnOk result (out.new.items
        ≡ out.old.items ++ in_parens semicolon_sign (map spec.section_tokens sections.now)) }
{
    if sections.is_empty() {
        return Ok(());
    }
    push_sign(signs::OPEN, out)?;
    push_sections(alloc, sections, out)?;
    push_sign(signs::CLOSE, out)
}

fn push_result(
    alloc: Global,
    shape: &Option<Text>,
    out: &mut Vec<TokenKind>,
) -> Result<(), NoMemory>
    ensures { OnOk result (out.new.items ≡ out.old.items ++ spec.result_tokens shape.now) }
{
    match shape {
        None => Ok(()),
        Some(ident) => {
            push_sign(signs::COLON, out)?;
            push_ident(alloc, ident, out)
        }
    }
}

// The word before a heading.
fn heading_word(function: bool) -> u8
    ensures { TokenKind.Word result ≡ spec.routine_word function }
{
    if function {
        words::FUNCTION
    } else {
        words::PROCEDURE
    }
}

/// Adds the tokens of a heading.
#[tactic(auto, unfolding(pascal_tree::specs::DeclTokens::heading_tokens))]
pub fn push_heading(
    alloc: Global,
    heading: &Heading,
    out: &mut Vec<TokenKind>,
) -> Result<(), NoMemory>
    ensures { OnOk result (out.new.items ≡ out.old.items ++ spec.heading_tokens heading.now) }
{
    push_word(heading_word(heading.function), out)?;
    push_ident(alloc, &heading.ident, out)?;
    push_params(alloc, heading.sections.as_slice(), out)?;
    push_result(alloc, &heading.result, out)
}
