//! The words of blocks, and of a whole load.
ghost use Rattle.pascal_semantics.specs.Valid.{IsForm};

use console_service::BlockCode;
use dice_base::{LinkTo, NoMemory};
use image_plan::load_words;
use pascal_semantics::{Operand, SimpleForm, Statement, Sum, charge};
use statement_code::{emit_program, emit_simple};
use std::alloc::Global;
use std::test::Fail;

const SEVEN: Sum = Sum {
    first: Operand::Number(7),
    second: None,
};

const FIRST: Sum = Sum {
    first: Operand::Global(0),
    second: None,
};

// Whether the code has this many words, these first and then HALT, with its one link word at this offset.
fn is_code(code: &BlockCode, charge: usize, front: &[u16], link: u16, to: LinkTo) -> bool {
    let words = &code.words;
    words.len() == charge
        && front.len() <= words.len()
        && &words[..front.len()] == front
        && words[front.len()..].iter().all(|word| *word == 0)
        && code.links.len() == 1
        && code.links[0].offset == link
        && code.links[0].to == to
}

fn assigns_a_sum(alloc: Global) -> Result<bool, NoMemory> {
    let sum = Sum {
        first: Operand::Global(3),
        second: Some(Operand::Number(1)),
    };
    let code = emit_simple(alloc, &SimpleForm::Assign(5, sum))?;
    let front = [
        0o000240, 0o013746, 0o065006, 0o012746, 1, 0o062616, 0o102403, 0o021627, 0o100000,
        0o001001, 0o104403, 0o012637, 0o065012, 0o000137, 0,
    ];
    Ok(is_code(&code, 64, &front, 14, LinkTo::Next))
}

// A line with the first variable, of a form with a width or without.
fn writes_a_line(
    alloc: Global,
    form: &SimpleForm,
    width: u16,
    charge: usize,
) -> Result<bool, NoMemory>
    requires { IsForm form.now }
{
    let code = emit_simple(alloc, form)?;
    let front = [
        0o000240, 0o013746, 0o065000, 0o012600, 0o012701, width, 0o104004, 0o104010, 0o000137, 0,
    ];
    Ok(is_code(&code, charge, &front, 9, LinkTo::Next))
}

fn makes_the_frame(alloc: Global) -> Result<bool, NoMemory> {
    let code = emit_program(alloc)?;
    let front = [
        0o005046, 0o005046, 0o010605, 0o005046, 0o012746, 45, 0o005046, 0o005046, 0o005046,
        0o005046, 0o005046, 0o005046, 0o005046, 0o005046, 0o005046, 0o000137, 0, 0o104000,
    ];
    Ok(is_code(&code, 32, &front, 16, LinkTo::Child(0)) && code.end == Some(17))
}

// The program's block is 32 words from word 256 on, its link word the 16th and its end part the 17th, counted from 0.
fn loads_in_text_order(alloc: Global) -> Result<bool, NoMemory> {
    let next = Sum {
        first: Operand::Global(0),
        second: Some(Operand::Number(1)),
    };
    let statements = [
        Statement {
            name: 4,
            form: SimpleForm::Assign(0, SEVEN),
        },
        Statement {
            name: 7,
            form: SimpleForm::Assign(1, next),
        },
        Statement {
            name: 5,
            form: SimpleForm::Empty,
        },
    ];
    let words = load_words(alloc, &statements)?;
    let gates = [(32, 0o000240), (68, 0o000240), (132, 0o000240)];
    let links = [(16, 576), (38, 648), (82, 776), (134, 546)];
    Ok(
        words.len() == 140
            && gates
                .into_iter()
                .chain(links)
                .all(|(at, word)| words.get(at) == Some(&word)),
    )
}

#[test]
fn blocks_have_their_words(rt: HostRuntime) -> Result<(), Fail> {
    let found = [
        assigns_a_sum(rt.alloc())?,
        writes_a_line(rt.alloc(), &SimpleForm::WriteLine(FIRST, None), 8, 52)?,
        writes_a_line(
            rt.alloc(),
            &SimpleForm::WriteLine(FIRST, Some(255)),
            255,
            56,
        )?,
        makes_the_frame(rt.alloc())?,
        loads_in_text_order(rt.alloc())?,
    ];
    assert!(rt; found == [true; 5]);
    Ok(())
}

#[test]
fn blocks_have_their_charges(rt: HostRuntime) {
    let two_globals = Sum {
        first: Operand::Global(4095),
        second: Some(Operand::Global(4095)),
    };
    let charges = [
        charge(&SimpleForm::Assign(0, SEVEN)),
        charge(&SimpleForm::Assign(0, two_globals)),
        charge(&SimpleForm::WriteLine(SEVEN, None)),
        charge(&SimpleForm::WriteLine(two_globals, Some(255))),
        charge(&SimpleForm::Empty),
    ];
    assert!(rt; charges == [36, 72, 44, 84, 8]);
}
