//! Texts that are read as parts of a program, and texts that are not.
ghost use Rattle.std.specs.Prelude.{◌≤◌, length};
ghost use Rattle.std.specs.List.{AllByRecursion};
ghost use Rattle.pascal_tree.specs.Sources.{HasLexeme};
ghost use Rattle.token_reader.specs.Answers.{kinds};

use dice_base::{NoMemory, Token};
use pascal_parser::{
    ParseFault, parse_declaration, parse_header, parse_heading, parse_program, parse_routine,
    parse_statement,
};
use pascal_scanner::{ScanFault, scan};
use std::alloc::Global;
use std::test::Fail;

// What a case says where its text has no tokens.
const NO_TOKENS: ParseFault = ParseFault::Unexpected(1_000_000);

// Which call reads a text.
#[derive(Clone, Copy)]
enum Part {
    Program,
    Statement,
    Header,
    Declaration,
    Routine,
    Heading,
}

// Lets the tree go, and keeps why there is none.
fn fault_of_tokens(alloc: Global, part: Part, tokens: &[Token]) -> Option<ParseFault>
    requires few { length tokens.now ≤ 65536 }
    requires lexemes { AllByRecursion HasLexeme (kinds tokens.now) }
{
    match part {
        Part::Program => parse_program(alloc, tokens).err(),
        Part::Statement => parse_statement(alloc, tokens).err(),
        Part::Header => parse_header(alloc, tokens).err(),
        Part::Declaration => parse_declaration(alloc, tokens).err(),
        Part::Routine => parse_routine(alloc, tokens).err(),
        Part::Heading => parse_heading(alloc, tokens).err(),
    }
}

#[tactic(auto, using(expression_laws::proofs::Words::lexes_each))]
fn fault_of(alloc: Global, part: Part, text: &[u8]) -> Result<Option<ParseFault>, NoMemory> {
    match scan(alloc, text) {
        Ok(tokens) => Ok(fault_of_tokens(alloc, part, &tokens)),
        Err(ScanFault::NoMemory) => Err(NoMemory),
        Err(_) => Ok(Some(NO_TOKENS)),
    }
}

#[test]
fn parts_are_read(rt: HostRuntime) -> Result<(), Fail> {
    let cases = [
        (
            Part::Program,
            b"program p(input); label 1; const c = -1; type t = set of 1..5; var x: t; procedure q; forward; begin 1: x := [c + 2] end.".as_slice(),
        ),
        (
            Part::Statement,
            b"if a then if b then x := 'it''s' else p^.f[1] := nil",
        ),
        (Part::Header, b"case n mod 2 of 0, 1: #; 2: #; end"),
        (
            Part::Declaration,
            b"type r = packed record x, y: integer; end",
        ),
        (
            Part::Routine,
            b"function f(var a: t): integer; begin f := g(a: 3) end",
        ),
        (Part::Heading, b"procedure p(a, b: t; var c: u)"),
    ];
    for (part, text) in cases {
        let fault = fault_of(rt.alloc(), part, text)?;
        assert!(rt; fault == None);
    }
    Ok(())
}

#[test]
fn faults_have_their_places(rt: HostRuntime) -> Result<(), Fail> {
    let cases = [
        (
            Part::Program,
            b"program p; begin end".as_slice(),
            ParseFault::EndsEarly,
        ),
        (
            Part::Program,
            b"program p; var x begin end.",
            ParseFault::Unexpected(5),
        ),
        (Part::Statement, b"s := ) s", ParseFault::Unexpected(2)),
        (Part::Statement, b"s := s +", ParseFault::EndsEarly),
        (
            Part::Header,
            b"while a do x := 1",
            ParseFault::Unexpected(3),
        ),
        (
            Part::Declaration,
            b"var x: integer;",
            ParseFault::Unexpected(4),
        ),
        (
            Part::Routine,
            b"procedure p; forwards",
            ParseFault::Unexpected(3),
        ),
        (Part::Heading, b"function f(a: t)", ParseFault::EndsEarly),
    ];
    for (part, text, expected) in cases {
        let fault = fault_of(rt.alloc(), part, text)?;
        assert!(rt; fault == Some(expected));
    }
    Ok(())
}
