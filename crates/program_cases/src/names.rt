//! Identifiers: where they are declared, and as what.
use crate::outcome::are_judged_so;
use std::test::Fail;

const UNKNOWN: [(&[u8], &[u8], &[u8]); 10] = [
    (b"var x: integer;", b"x := y", b"unknown 4"),
    (b"const a = b; b = 1;", b"", b"unknown 2"),
    (b"type t = array [1..3] of u;", b"", b"unknown 2"),
    (b"type p = ^cell; var cell: integer;", b"", b"unknown 2"),
    (
        b"type p = ^cell; cell = record next: p end; var x: p;",
        b"x^.next := nil",
        b"clean",
    ),
    (b"var r: record a: integer end;", b"r.b := 1", b"unknown 4"),
    (
        b"procedure p; begin q end; procedure q; begin end;",
        b"",
        b"unknown 4",
    ),
    (
        b"const n = 4; procedure p; var x: array [1..n] of char; n: integer; begin end;",
        b"",
        b"unknown 4",
    ),
    (
        b"var x: integer; procedure p; var y: integer; begin y := 1 end;",
        b"x := y",
        b"unknown 8",
    ),
    (
        b"var r: record a: integer end;",
        b"with r do a := 1; a := 2",
        b"unknown 6",
    ),
];

#[test]
fn unknown_cases(rt: HostRuntime) -> Result<(), Fail> {
    assert!(rt; are_judged_so(rt.alloc(), &UNKNOWN)?);
    Ok(())
}

const TWICE: [(&[u8], &[u8], &[u8]); 11] = [
    (b"const a = 1; var a: integer;", b"", b"twice 3"),
    (b"var x, y, x: char;", b"", b"twice 2"),
    (b"type colour = (red, green, red);", b"", b"twice 2"),
    (
        b"var r: record a, b: integer; a: char end;",
        b"",
        b"twice 2",
    ),
    (
        b"procedure p(a: integer); var a: char; begin end;",
        b"",
        b"twice 3",
    ),
    (b"procedure p(a, a: integer); begin end;", b"", b"twice 2"),
    (b"label 3, 3;", b"3: ", b"twice 2"),
    (
        b"var r: record c: (north, south) end; south: integer;",
        b"",
        b"twice 3",
    ),
    (
        b"type t = integer; procedure p; type t = char; var t: t; begin end;",
        b"",
        b"twice 5",
    ),
    (b"var integer: char;", b"integer := 'a'", b"clean"),
    (
        b"function f: integer; var f: integer; begin f := 1 end;",
        b"",
        b"clean",
    ),
];

#[test]
fn twice_cases(rt: HostRuntime) -> Result<(), Fail> {
    assert!(rt; are_judged_so(rt.alloc(), &TWICE)?);
    Ok(())
}

const CLASS: [(&[u8], &[u8], &[u8]); 12] = [
    (b"const a = 1;", b"a := 2", b"class 4"),
    (b"type t = integer;", b"t := 2", b"class 4"),
    (b"var x: integer;", b"x", b"class 4"),
    (b"var x: y; y: integer;", b"", b"unknown 2"),
    (
        b"var x: integer; procedure p; begin end;",
        b"x := 1; p := 2",
        b"class 8",
    ),
    (
        b"var x: integer; procedure p; begin end;",
        b"x := p",
        b"class 7",
    ),
    (b"function f: integer; begin f := 1 end;", b"f", b"class 6"),
    (
        b"function f: integer; begin f := 1 end;",
        b"f := 1",
        b"class 6",
    ),
    (b"procedure p; begin p := 1 end;", b"", b"class 4"),
    (b"var x, y: integer;", b"x.y := 1", b"class 4"),
    (b"const c = integer;", b"", b"class 2"),
    (
        b"var k: integer;",
        b"for integer := 1 to 2 do k := 1",
        b"class 4",
    ),
];

#[test]
fn class_cases(rt: HostRuntime) -> Result<(), Fail> {
    assert!(rt; are_judged_so(rt.alloc(), &CLASS)?);
    Ok(())
}
