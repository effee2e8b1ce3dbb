//! What the check says of a text, in words.
use check_decl::resolve_declarations;
use check_program::{LayoutFault, check_program, layout_fault};
use check_rules::{CheckEnd, CheckFault};
use dice_base::{Name, NoMemory, Text, push_decimal};
use pascal_parser::parse_program;
use pascal_scanner::scan;
use std::alloc::Global;
use std::test::Fail;

// The words for the kinds of check faults, from `UNKNOWN` on.
const KINDS: [&[u8]; 11] = [
    b"unknown",
    b"twice",
    b"class",
    b"type",
    b"arguments",
    b"constant",
    b"label",
    b"control",
    b"size",
    b"forward",
    b"parameter",
];

fn push_number(alloc: Global, out: &mut Text, number: u32) -> Result<(), NoMemory> {
    out.push(alloc, b' ')?;
    push_decimal(alloc, out, u64::from(number))
}

fn fault_text(alloc: Global, fault: CheckFault) -> Result<Text, NoMemory> {
    let mut out = Text::new(alloc);
    if let Some(word) = KINDS.get((fault.kind as usize).wrapping_sub(1)) {
        out.append(alloc, word)?;
    }
    push_number(alloc, &mut out, fault.name.0)?;
    Ok(out)
}

fn sizes_text(alloc: Global, fault: Option<LayoutFault>) -> Result<Text, NoMemory> {
    let mut out = Text::new(alloc);
    match fault {
        None => out.append(alloc, b"clean")?,
        Some(LayoutFault::GlobalsFull(words)) => {
            out.append(alloc, b"globals")?;
            push_number(alloc, &mut out, words)?;
        }
        Some(LayoutFault::FrameTooLarge(Name(name), words)) => {
            out.append(alloc, b"frame")?;
            push_number(alloc, &mut out, name)?;
            push_number(alloc, &mut out, words)?;
        }
    }
    Ok(out)
}

// `program z; DECLARATIONS begin STATEMENTS end.`
fn program_text(alloc: Global, declarations: &[u8], statements: &[u8]) -> Result<Text, NoMemory> {
    let mut text = Text::new(alloc);
    text.append(alloc, b"program z; ")?;
    text.append(alloc, declarations)?;
    text.append(alloc, b" begin ")?;
    text.append(alloc, statements)?;
    text.append(alloc, b" end.")?;
    Ok(text)
}

/// What the check says of a text: `clean`, the kind of the first fault with the name of its item, or the size that is too
/// large.
#[tactic(auto, using(expression_laws::proofs::Words::lexes_each))]
pub fn outcome_of(alloc: Global, text: &[u8]) -> Result<Text, Fail> {
    let tokens = scan(alloc, text)?;
    let program = parse_program(alloc, &tokens)?;
    let text = match check_program(alloc, program.tree()) {
        Ok(end) => sizes_text(alloc, layout_fault(end.known.layouts.as_slice()))?,
        Err(CheckEnd::Fault(fault)) => fault_text(alloc, fault)?,
        Err(_) => Text::new(alloc),
    };
    Ok(text)
}

/// Whether the check says so of each of these programs, told by their declarations and their statements.
pub fn are_judged_so(alloc: Global, cases: &[(&[u8], &[u8], &[u8])]) -> Result<bool, Fail> {
    for (declarations, statements, expected) in cases {
        let text = program_text(alloc, declarations, statements)?;
        let outcome = outcome_of(alloc, text.bytes())?;
        if outcome.bytes() != *expected {
            return Ok(false);
        }
    }
    Ok(true)
}

/// Whether the check says so of each of these texts.
pub fn are_texts_judged_so(alloc: Global, cases: &[(&[u8], &[u8])]) -> Result<bool, Fail> {
    for (text, expected) in cases {
        let outcome = outcome_of(alloc, text)?;
        if outcome.bytes() != *expected {
            return Ok(false);
        }
    }
    Ok(true)
}

/// Whether the declarations of a text have no fault, whatever its statements say.
#[tactic(auto, using(expression_laws::proofs::Words::lexes_each))]
pub fn are_declared(alloc: Global, text: &[u8]) -> Result<bool, Fail> {
    let tokens = scan(alloc, text)?;
    let program = parse_program(alloc, &tokens)?;
    match resolve_declarations(alloc, program.tree()) {
        Ok(_) => Ok(true),
        Err(CheckEnd::NoMemory) => Err(Fail::from(NoMemory)),
        Err(_) => Ok(false),
    }
}
