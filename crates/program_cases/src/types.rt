//! Types, arguments and constants.
use crate::outcome::are_judged_so;
use std::test::Fail;

const TYPE: [(&[u8], &[u8], &[u8]); 27] = [
    (b"var x: integer;", b"x := true", b"type 4"),
    (b"var c: char;", b"c := 'ab'", b"type 4"),
    (b"var x: integer;", b"if x then x := 1", b"type 4"),
    (b"var x: integer;", b"while x + 1 do x := 1", b"type 4"),
    (b"var x: integer;", b"repeat x := 1 until x", b"type 4"),
    (
        b"var s: packed array [1..3] of char;",
        b"s := 'abcd'",
        b"type 4",
    ),
    (
        b"var s: packed array [1..3] of char;",
        b"s := 'abc'; if s < 'abd' then s := 'xyz'",
        b"clean",
    ),
    (
        b"var a: array [1..3] of integer;",
        b"a[true] := 1",
        b"type 4",
    ),
    (
        b"var a, b: array [1..3] of integer;",
        b"a := b; if a = b then a := b",
        b"type 5",
    ),
    (
        b"type t = 1..9; var x: t; y: integer;",
        b"x := y; y := x",
        b"clean",
    ),
    (
        b"type colour = (red, green); fruit = (apple, pear); var c: colour;",
        b"c := apple",
        b"type 6",
    ),
    (
        b"var s: set of char;",
        b"s := ['a'..'z']; if 1 in s then s := []",
        b"type 5",
    ),
    (
        b"var s: set of 1..9; t: set of char;",
        b"s := s + t",
        b"type 5",
    ),
    (
        b"var p: ^integer; q: ^integer;",
        b"p := nil; p := q",
        b"type 6",
    ),
    (
        b"var x: integer;",
        b"case x = 1 of true: ; 2: end",
        b"type 4",
    ),
    (b"var x: integer;", b"write(x); write([1])", b"type 5"),
    (b"var b: boolean;", b"read(b)", b"type 4"),
    (
        b"var x: 1..9; c: 'a'..'z';",
        b"read(x, c); readln",
        b"clean",
    ),
    (b"var x: integer;", b"writeln(x: true)", b"type 4"),
    (b"var c: char;", b"for c := 1 to 9 do", b"type 4"),
    (
        b"type s = set of char; function f(x: integer): s; begin end;",
        b"",
        b"type 3",
    ),
    (b"var x: set of integer;", b"", b"constant 2"),
    (b"var x: 1..'a';", b"", b"type 2"),
    (b"var x: integer;", b"x := -true", b"type 4"),
    (b"var x: integer;", b"with x do x := 1", b"type 4"),
    (b"var x: integer;", b"x := not 1", b"type 4"),
    (b"var p: ^integer;", b"p := p + p", b"type 4"),
];

#[test]
fn type_cases(rt: HostRuntime) -> Result<(), Fail> {
    assert!(rt; are_judged_so(rt.alloc(), &TYPE)?);
    Ok(())
}

const ARGUMENTS: [(&[u8], &[u8], &[u8]); 14] = [
    (b"var x: integer;", b"x := abs(1, 2)", b"arguments 4"),
    (b"procedure p(a: integer); begin end;", b"p", b"arguments 6"),
    (
        b"procedure p(a: integer); begin end;",
        b"p(1, 2)",
        b"arguments 6",
    ),
    (
        b"procedure p(var a: integer); begin end;",
        b"p(1)",
        b"arguments 6",
    ),
    (
        b"var x: 1..9; procedure p(var a: integer); begin end;",
        b"p(x)",
        b"arguments 7",
    ),
    (
        b"var r: packed record a: integer end; procedure p(var a: integer); begin end;",
        b"p(r.a)",
        b"arguments 7",
    ),
    (
        b"var r: record a: integer end; procedure p(var a: integer); begin end;",
        b"p(r.a)",
        b"clean",
    ),
    (
        b"procedure p(a: integer); begin end;",
        b"p(1: 2)",
        b"arguments 6",
    ),
    (b"", b"write", b"arguments 3"),
    (b"", b"writeln", b"clean"),
    (b"var x: integer;", b"read", b"arguments 4"),
    (b"var x: integer;", b"x := ord", b"arguments 4"),
    (b"var p: ^integer;", b"new(p, p)", b"arguments 4"),
    (
        b"var b: boolean;",
        b"b := eof(input); b := eoln(output)",
        b"type 5",
    ),
];

#[test]
fn arguments_cases(rt: HostRuntime) -> Result<(), Fail> {
    assert!(rt; are_judged_so(rt.alloc(), &ARGUMENTS)?);
    Ok(())
}

const CONSTANT: [(&[u8], &[u8], &[u8]); 10] = [
    (b"var x: 9..1;", b"", b"constant 2"),
    (
        b"var x: integer;",
        b"case x of 1: ; 2: ; 1: end",
        b"constant 4",
    ),
    (
        b"var x: integer;",
        b"case x of 1, 2: ; 3, 2: end",
        b"constant 4",
    ),
    (b"var s: set of 0..128;", b"", b"constant 2"),
    (b"var s: set of -1..3;", b"", b"constant 2"),
    (b"var s: set of 0..127;", b"s := [0, 127]", b"clean"),
    (
        b"const s = 'aaaaaaaaaaaaaaaaaaaaaaaaaaaaaaaaaaaaaaaaaaaaaaaaaaaaaaaaaaaaaaaaaaaaaaaaaaaaaaaaaaaaaaaaaaaaaaaaaaaaaaaaaaaaaaaaaaaaaaaaaaaaaaaaaaaaaaaaaaaaaaaaaaaaaaaaaaaaaaaaaaaaaaaaaaaaaaaaaaaaaaaaaaaaaaaaaaaaaaaaaaaaaaaaaaaaaaaaaaaaaaaaaaaaaaaaaaaaaaaaaaaaaaaaaaaaaaaa';",
        b"",
        b"constant 2",
    ),
    (
        b"const s = 'aaaaaaaaaaaaaaaaaaaaaaaaaaaaaaaaaaaaaaaaaaaaaaaaaaaaaaaaaaaaaaaaaaaaaaaaaaaaaaaaaaaaaaaaaaaaaaaaaaaaaaaaaaaaaaaaaaaaaaaaaaaaaaaaaaaaaaaaaaaaaaaaaaaaaaaaaaaaaaaaaaaaaaaaaaaaaaaaaaaaaaaaaaaaaaaaaaaaaaaaaaaaaaaaaaaaaaaaaaaaaaaaaaaaaaaaaaaaaaaaaaaaaaaaaaaaaaa';",
        b"writeln(s)",
        b"clean",
    ),
    (b"type t = 'z'..'a';", b"", b"constant 2"),
    (
        b"var c: char;",
        b"case c of 'a': case c of 'a': ; 'b': end; 'b': end",
        b"clean",
    ),
];

#[test]
fn constant_cases(rt: HostRuntime) -> Result<(), Fail> {
    assert!(rt; are_judged_so(rt.alloc(), &CONSTANT)?);
    Ok(())
}
