//! `program a; var i: integer; begin begin ; end; i := 1 end.`, searched, copied, edited and printed.
ghost use Rattle.std.specs.Prelude.{◌≡◌, true, IfOk};
ghost use Rattle.pascal_tree.specs.Formed.{is_formed_stmt};

use dice_base::{Name, NoMemory, Text};
use pascal_parser::{parse_program, parse_statement};
use pascal_print::{print_program, print_statement};
use pascal_scanner::scan;
use pascal_tree::{Stmt, StmtKind};
use program_tree::{Item, Program};
use sqlite_items::Boxed;
use std::alloc::Global;
use std::test::Fail;
use tree_edit::{EditFault, replace};

// The program, with the names 1 to 7 in the order of the text.
#[tactic(auto, using(expression_laws::proofs::Words::lexes_each))]
fn program(alloc: Global) -> Result<Program, Fail> {
    let text = b"program a; var i: integer; begin begin ; end; i := 1 end.";
    let tokens = scan(alloc, text)?;
    let program = parse_program(alloc, &tokens)?;
    Ok(program)
}

#[tactic(auto, using(expression_laws::proofs::Words::lexes_each))]
fn statement(alloc: Global, text: &[u8]) -> Result<Boxed<Stmt>, Fail>
    ensures { IfOk result (λ stmt. is_formed_stmt stmt ≡ true) }
{
    let tokens = scan(alloc, text)?;
    let stmt = parse_statement(alloc, &tokens)?;
    let stmt = Boxed::new(alloc, stmt)?;
    Ok(stmt)
}

// Compound statements in one another, and an empty statement inside: one level more than there are compounds.
fn nested(alloc: Global, compounds: u32) -> Result<Text, NoMemory> {
    let mut text = Text::new(alloc);
    for _ in 0..compounds {
        text.append(alloc, b"begin ")?;
    }
    for _ in 0..compounds {
        text.append(alloc, b"end ")?;
    }
    Ok(text)
}

// A letter for what has the name.
fn letter(program: &Program, name: u32) -> u8 {
    match program.find(Name(name)) {
        None => b'-',
        Some(Item::OfProgram(_)) => b'p',
        Some(Item::OfDecl(_)) => b'd',
        Some(Item::OfRoutine(_)) => b'r',
        Some(Item::OfStmt(stmt)) => match &stmt.kind {
            StmtKind::Empty => b'e',
            StmtKind::Assign(_, _) => b'a',
            StmtKind::Compound(_) => b'c',
            _ => b's',
        },
    }
}

// The number of the parent, and the place in its sequence; 0 and 9 where there is none.
fn place(program: &Program, name: u32) -> (u32, u32) {
    let parent = match program.parent(Name(name)) {
        Some(parent) => parent.0,
        None => 0,
    };
    match program.sequence_of(Name(name)) {
        Some((_, at)) => (parent, at),
        None => (parent, 9),
    }
}

#[test]
fn items_are_found_by_name(rt: HostRuntime) -> Result<(), Fail> {
    let program = program(rt.alloc())?;
    let copy = program.copy(rt.alloc())?;
    // A copy may have a later next name, and no earlier one.
    assert!(rt; copy.next_name() <= 20);
    let later = copy.copy_next(rt.alloc(), 20)?;
    let letters = [0, 1, 2, 3, 4, 5, 6, 7, 8].map(|name| letter(&later, name));
    let places = [1, 2, 3, 4, 5, 6, 7, 8].map(|name| place(&later, name));
    let is_inner = program.path_of(Name(6)) == Some([1, 0, 1].as_slice());
    let next = (program.next_name(), later.next_name());
    drop(later);
    drop(copy);
    drop(program);
    let wanted = [
        (0, 9),
        (1, 9),
        (1, 9),
        (3, 0),
        (4, 0),
        (4, 1),
        (3, 1),
        (0, 9),
    ];
    assert!(rt; letters == *b"-pdcceea-" && places == wanted && is_inner && next == (8, 20));
    Ok(())
}

#[test]
fn a_statement_is_replaced(rt: HostRuntime) -> Result<(), Fail> {
    let alloc = rt.alloc();
    let empty = statement(alloc, b"")?;
    let text = nested(alloc, 61)?;
    let deep = statement(alloc, text.bytes())?;
    let pair = statement(alloc, b"begin ; end")?;
    let mut program = program(alloc)?;
    let answers = [
        replace(alloc, &mut program, Name(8), empty.get()),
        replace(alloc, &mut program, Name(2), empty.get()),
        replace(alloc, &mut program, Name(3), empty.get()),
        replace(alloc, &mut program, Name(5), deep.get()),
        replace(alloc, &mut program, Name(5), pair.get()),
    ];
    let next = program.next_name();
    let letters = [3, 4, 5, 6, 7, 8, 9, 10].map(|name| letter(&program, name));
    let places = [5, 6, 8, 9].map(|name| place(&program, name));
    drop(program);
    let wanted = [
        Err(EditFault::NoSuchName(Name(8))),
        Err(EditFault::WrongKind(Name(2))),
        Err(EditFault::WrongKind(Name(3))),
        Err(EditFault::TooDeep),
        Ok(()),
    ];
    let found = letters == *b"ccceaee-" && places == [(4, 0), (4, 1), (5, 0), (5, 1)];
    assert!(rt; answers == wanted && found && next == 10);
    Ok(())
}

#[test]
fn an_else_stays_with_its_if(rt: HostRuntime) -> Result<(), Fail> {
    let alloc = rt.alloc();
    let open = statement(alloc, b"if 1 then")?;
    let choice = statement(alloc, b"if 1 then while 1 do else")?;
    let pair = statement(alloc, b"begin ; end")?;
    let mut program = program(alloc)?;
    // The `if` is 5, the `while` 8, what it repeats 9, and the second branch 10.
    let answers = [
        replace(alloc, &mut program, Name(5), choice.get()),
        replace(alloc, &mut program, Name(8), open.get()),
        replace(alloc, &mut program, Name(9), open.get()),
        replace(alloc, &mut program, Name(10), open.get()),
        replace(alloc, &mut program, Name(9), pair.get()),
    ];
    let next = program.next_name();
    let letters = [5, 8, 9, 10, 11, 12, 13, 14].map(|name| letter(&program, name));
    drop(program);
    let wanted = [
        Ok(()),
        Err(EditFault::WrongKind(Name(8))),
        Err(EditFault::WrongKind(Name(9))),
        Ok(()),
        Ok(()),
    ];
    assert!(rt; answers == wanted && letters == *b"sscseee-" && next == 14);
    Ok(())
}

const NAMED: &str = "     1 program a ;
       var
     2   i : integer ;
     3   begin
     4     begin
     5       ;
     6
           end ;
     7     i := 1
         end .
";

const PLAIN: &str = "program a ;
var
  i : integer ;
  begin
    begin
      ;
    end ;
    i := 1
  end .
";

#[test]
fn items_are_printed(rt: HostRuntime) -> Result<(), Fail> {
    let alloc = rt.alloc();
    let program = program(alloc)?;
    let pair = statement(alloc, b"begin ; end")?;
    let named = print_program(alloc, &program, true)?;
    let plain = print_program(alloc, &program, false)?;
    let part = print_statement(alloc, pair.get())?;
    let is = [
        named.bytes() == NAMED.as_bytes(),
        plain.bytes() == PLAIN.as_bytes(),
        part.bytes() == b"begin\n  ;\nend\n".as_slice(),
    ];
    assert!(rt; is == [true; 3]);
    Ok(())
}
