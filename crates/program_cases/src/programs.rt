//! Sizes, the order of faults, and programs without any.
use crate::outcome::{are_declared, are_judged_so, are_texts_judged_so};
use std::test::Fail;

const SIZE: [(&[u8], &[u8], &[u8]); 6] = [
    (b"var x: array [1..4097] of char;", b"", b"size 2"),
    (b"var x: array [1..4096] of char;", b"", b"clean"),
    (
        b"type t = array [1..64] of array [1..65] of integer;",
        b"",
        b"size 2",
    ),
    (
        b"type t = record a, b: array [1..2048] of char end; u = record a: t; b: char end;",
        b"",
        b"size 3",
    ),
    (b"var s: array [1..512] of set of 0..7;", b"", b"clean"),
    (b"var s: array [1..513] of set of 0..7;", b"", b"size 2"),
];

#[test]
fn size_cases(rt: HostRuntime) -> Result<(), Fail> {
    assert!(rt; are_judged_so(rt.alloc(), &SIZE)?);
    Ok(())
}

const ORDER: [(&[u8], &[u8], &[u8]); 8] = [
    (b"var x: integer;", b"x := y; y := true", b"unknown 4"),
    (b"var x: integer;", b"if x then x := y", b"type 4"),
    (b"const a = b; a = 1;", b"", b"unknown 2"),
    (b"var x: integer;", b"x := y + true", b"unknown 4"),
    (
        b"var x: 1..9; procedure p; begin y := 1 end; procedure q(a: t); begin end;",
        b"",
        b"unknown 5",
    ),
    (b"label 7; var x: 9..1;", b"goto 8", b"label 2"),
    (
        b"var x: integer; procedure p(a: t); var a: u; begin end;",
        b"x := true",
        b"unknown 3",
    ),
    (
        b"var k: integer;",
        b"for k := 1 to true do k := nil",
        b"type 4",
    ),
];

#[test]
fn order_cases(rt: HostRuntime) -> Result<(), Fail> {
    assert!(rt; are_judged_so(rt.alloc(), &ORDER)?);
    Ok(())
}

const LAYOUT: [(&[u8], &[u8], &[u8]); 10] = [
    (b"var a: array [1..4096] of char;", b"", b"clean"),
    (b"var a: array [1..4095] of char; b: char;", b"", b"clean"),
    (
        b"var a: array [1..4096] of char; b: char;",
        b"",
        b"globals 4097",
    ),
    (
        b"procedure p; var a: array [1..2003] of char; begin end;",
        b"",
        b"clean",
    ),
    (
        b"procedure p; var a: array [1..2004] of char; begin end;",
        b"",
        b"frame 2 2049",
    ),
    (
        b"procedure p(a, b: integer); var d: char; procedure q; var c: array [1..2003] of char; begin end; begin end;",
        b"",
        b"clean",
    ),
    (
        b"procedure p(a, b: integer); var d: char; procedure q; var c: array [1..2004] of char; begin end; begin end;",
        b"",
        b"frame 4 2049",
    ),
    (
        b"function f(var a: integer): integer; var c: array [1..2001] of char; begin f := 1 end;",
        b"",
        b"clean",
    ),
    (
        b"function f(var a: integer): integer; var c: array [1..2002] of char; begin f := 1 end;",
        b"",
        b"frame 2 2049",
    ),
    (
        b"var a: array [1..4000] of char; b: array [1..97] of char; procedure p; var a: array [1..2010] of char; begin end;",
        b"",
        b"globals 4097",
    ),
];

#[test]
fn layout_cases(rt: HostRuntime) -> Result<(), Fail> {
    assert!(rt; are_judged_so(rt.alloc(), &LAYOUT)?);
    Ok(())
}

const CLEAN: [(&[u8], &[u8], &[u8]); 5] = [
    (
        b"procedure a; procedure b; procedure c; procedure d; var x: array [1..3] of record y: set of char end; begin x[1].y := ['a'] end; begin d end; begin c end; begin b end;",
        b"a",
        b"clean",
    ),
    (
        b"type list = ^cell; cell = record item: integer; next: list end; var l: list; procedure push(x: integer; var l: list); var c: list; begin new(c); c^.item := x; c^.next := l; l := c end;",
        b"l := nil; push(3, l); while l <> nil do begin writeln(l^.item); l := l^.next end",
        b"clean",
    ),
    (
        b"function gcd(a, b: integer): integer; begin if b = 0 then gcd := a else gcd := gcd(b, a mod b) end;",
        b"writeln(gcd(12, 18): 4)",
        b"clean",
    ),
    (
        b"type day = (mon, tue, wed); week = array [day] of 0..24; var w: week; d: day; n: integer;",
        b"n := 0; for d := mon to wed do begin w[d] := ord(d); n := n + w[d] end; writeln(n)",
        b"clean",
    ),
    (
        b"var s: set of 'a'..'z'; c: char;",
        b"s := []; repeat read(c); if c in ['a'..'z'] then s := s + [c] until eoln; writeln('a' in s)",
        b"clean",
    ),
];

#[test]
fn clean_cases(rt: HostRuntime) -> Result<(), Fail> {
    assert!(rt; are_judged_so(rt.alloc(), &CLEAN)?);
    Ok(())
}

const PARAMETERS: [(&[u8], &[u8]); 4] = [
    (
        b"program z(input, output, input); begin end.",
        b"parameter 1",
    ),
    (b"program z(input, output); begin end.", b"clean"),
    (b"program z(files); begin end.", b"parameter 1"),
    (b"program z(output); begin end.", b"clean"),
];

#[test]
fn parameter_cases(rt: HostRuntime) -> Result<(), Fail> {
    assert!(rt; are_texts_judged_so(rt.alloc(), &PARAMETERS)?);
    Ok(())
}

#[test]
fn declarations_stand_alone(rt: HostRuntime) -> Result<(), Fail> {
    let alloc = rt.alloc();
    assert!(rt; are_declared(alloc, b"program z; var x: integer; begin x := y end.")?);
    assert!(rt; !are_declared(alloc, b"program z; var x: y; begin end.")?);
    Ok(())
}
