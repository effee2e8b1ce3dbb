//! Labels, control variables and forward headings.
use crate::outcome::are_judged_so;
use std::test::Fail;

const LABEL: [(&[u8], &[u8], &[u8]); 11] = [
    (b"", b"goto 5", b"label 3"),
    (b"label 5;", b"", b"label 2"),
    (b"", b"5: ", b"label 3"),
    (b"label 5;", b"5: ; 5: ", b"label 2"),
    (b"label 10000;", b"10000: ", b"label 2"),
    (b"label 9999;", b"9999: ; goto 9999", b"clean"),
    (b"label 5;", b"goto 5; begin 5: end", b"label 4"),
    (
        b"label 5; var b: boolean;",
        b"if b then 5: b := false; goto 5",
        b"label 7",
    ),
    (
        b"label 5; var b: boolean;",
        b"5: while b do begin repeat goto 5 until b end",
        b"clean",
    ),
    (
        b"label 5; procedure p; begin goto 5 end;",
        b"5: ",
        b"label 5",
    ),
    (
        b"label 5; var k: integer;",
        b"for k := 1 to 3 do begin 5: ; goto 5 end",
        b"clean",
    ),
];

#[test]
fn label_cases(rt: HostRuntime) -> Result<(), Fail> {
    assert!(rt; are_judged_so(rt.alloc(), &LABEL)?);
    Ok(())
}

const CONTROL: [(&[u8], &[u8], &[u8]); 11] = [
    (
        b"var k: integer;",
        b"for k := 1 to 9 do k := 0",
        b"control 4",
    ),
    (
        b"var k: integer;",
        b"for k := 1 to 9 do read(k)",
        b"control 4",
    ),
    (
        b"var k: integer;",
        b"for k := 1 to 9 do for k := 1 to 2 do",
        b"control 4",
    ),
    (
        b"var k: integer; procedure p; begin k := 1 end;",
        b"for k := 1 to 9 do",
        b"control 7",
    ),
    (
        b"var k: integer; procedure p; var k: integer; begin k := 1 end;",
        b"for k := 1 to 9 do p",
        b"clean",
    ),
    (
        b"procedure p(k: integer); begin for k := 1 to 2 do end;",
        b"",
        b"control 4",
    ),
    (
        b"var k: integer; procedure p; begin for k := 1 to 2 do end;",
        b"",
        b"control 5",
    ),
    (
        b"var k: integer; procedure p; procedure q; begin read(k) end; begin end;",
        b"for k := 1 to 2 do",
        b"control 10",
    ),
    (
        b"var k: integer; procedure p(var a: integer); begin a := 1 end;",
        b"for k := 1 to 9 do p(k)",
        b"control 7",
    ),
    (
        b"var k: integer; procedure p(a: integer); begin end;",
        b"for k := 1 to 9 do p(k)",
        b"clean",
    ),
    (
        b"var r: record k: integer end;",
        b"with r do for k := 1 to 2 do",
        b"class 5",
    ),
];

#[test]
fn control_cases(rt: HostRuntime) -> Result<(), Fail> {
    assert!(rt; are_judged_so(rt.alloc(), &CONTROL)?);
    Ok(())
}

const FORWARD: [(&[u8], &[u8], &[u8]); 7] = [
    (b"procedure q; forward;", b"", b"forward 2"),
    (
        b"procedure q; forward; procedure q; begin end;",
        b"q",
        b"clean",
    ),
    (
        b"procedure q; forward; procedure q(a: integer); begin end;",
        b"",
        b"forward 3",
    ),
    (
        b"function f: integer; forward; procedure f; begin end;",
        b"",
        b"forward 2",
    ),
    (
        b"function f(a: integer): integer; forward; function f; begin f := a end;",
        b"writeln(f(2))",
        b"clean",
    ),
    (
        b"function f: integer; forward; function f: integer; begin f := 1 end;",
        b"",
        b"forward 3",
    ),
    (
        b"procedure a; forward; procedure b; begin a end; procedure a; begin b end;",
        b"a",
        b"clean",
    ),
];

#[test]
fn forward_cases(rt: HostRuntime) -> Result<(), Fail> {
    assert!(rt; are_judged_so(rt.alloc(), &FORWARD)?);
    Ok(())
}
