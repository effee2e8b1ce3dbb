//! Texts with their tokens, and texts that have none.
use dice_base::{NoMemory, Text, Token, TokenKind, push_decimal};
use pascal_scanner::{MAX_TEXT_BYTES, ScanFault, scan};
use std::alloc::Global;
use std::test::Fail;

fn push_number(alloc: Global, out: &mut Text, letter: u8, number: u64) -> Result<(), NoMemory> {
    out.push(alloc, letter)?;
    push_decimal(alloc, out, number)
}

fn push_quoted(alloc: Global, out: &mut Text, characters: &[u8]) -> Result<(), NoMemory> {
    out.push(alloc, b'"')?;
    out.append(alloc, characters)?;
    out.push(alloc, b'"')
}

fn push_kind(alloc: Global, out: &mut Text, kind: &TokenKind) -> Result<(), NoMemory> {
    match kind {
        TokenKind::Word(number) => push_number(alloc, out, b'w', u64::from(*number)),
        TokenKind::Ident(ident) => out.append(alloc, ident.bytes()),
        TokenKind::Number(number) => push_number(alloc, out, b'n', u64::from(*number)),
        TokenKind::Str(string) => push_quoted(alloc, out, string.bytes()),
        TokenKind::Sign(number) => push_number(alloc, out, b's', u64::from(*number)),
        TokenKind::Hole => out.push(alloc, b'#'),
    }
}

// The tokens, each with its kind and number or spelling, and with the place where it begins.
fn description(alloc: Global, tokens: &[Token]) -> Result<Text, NoMemory> {
    let mut out = Text::new(alloc);
    for token in tokens {
        push_kind(alloc, &mut out, &token.kind)?;
        push_number(alloc, &mut out, b'@', u64::from(token.span.from))?;
        out.push(alloc, b' ')?;
    }
    Ok(out)
}

fn is_scanned_as(alloc: Global, text: &[u8], wanted: &[u8]) -> Result<bool, Fail> {
    let tokens = scan(alloc, text)?;
    let found = description(alloc, tokens.as_slice())?;
    Ok(found.bytes() == wanted)
}

const TEXTS: [(&[u8], &[u8]); 9] = [
    (b"", b""),
    (b" \t\r\n", b""),
    (b"and WITH Program", b"w0@0 w34@4 w24@9 "),
    (b"a1 B2c beginx", b"a1@0 b2c@3 beginx@7 "),
    (b"1..5", b"n1@0 s18@1 n5@3 "),
    (b"0 32767 007x", b"n0@0 n32767@2 n7@8 x@11 "),
    (
        b"+-*= <>< ><= >=()",
        b"s0@0 s1@1 s2@2 s3@3 s4@5 s5@7 s6@9 s7@10 s8@13 s9@15 s10@16 ",
    ),
    (
        b"[]:=.,;:..^#",
        b"s11@0 s12@1 s13@2 s14@4 s15@5 s16@6 s17@7 s18@8 s19@10 #@11 ",
    ),
    (b"v:=w;", b"v@0 s13@1 w@3 s16@4 "),
];

// A comment closes at the first `}` or `*)`, and separates.
const COMMENTS: [(&[u8], &[u8]); 13] = [
    (b"{}", b""),
    (b"(**)", b""),
    (b"{*)1", b"n1@3 "),
    (b"(*}1", b"n1@3 "),
    (b"(*)*)1", b"n1@5 "),
    (b"(***)1", b"n1@5 "),
    (b"{(*}1", b"n1@4 "),
    (b"{{}1", b"n1@3 "),
    (b"{* )}1", b"n1@5 "),
    (b"a{'}b", b"a@0 b@4 "),
    (b"1{2}3", b"n1@0 n3@4 "),
    (b"{\n\0\x7f\xff$}(", b"s9@7 "),
    (b"( *)", b"s9@0 s2@2 s10@3 "),
];

const STRINGS: [(&[u8], &[u8]); 9] = [
    (b"'a'", b"\"a\"@0 "),
    (b"' \t~'", b"\" \t~\"@0 "),
    (b"''''", b"\"'\"@0 "),
    (b"'''a''''b'", b"\"'a''b\"@0 "),
    (b"'a''b'", b"\"a'b\"@0 "),
    (b"'a' 'b'", b"\"a\"@0 \"b\"@4 "),
    (b"x'A'1", b"x@0 \"A\"@1 n1@4 "),
    (b"'{' '(*' '}'", b"\"{\"@0 \"(*\"@4 \"}\"@9 "),
    (b"'\"'", b"\"\"\"@0 "),
];

// `@` is `^`, `(.` is `[` and `.)` is `]`. The longest sign is taken, in either spelling.
const ALTERNATIVES: [(&[u8], &[u8]); 7] = [
    (b"@", b"s19@0 "),
    (b"p@.x@^", b"p@0 s19@1 s14@2 x@3 s19@4 s19@5 "),
    (b"a(.1.)", b"a@0 s11@1 n1@3 s12@4 "),
    (b"(..", b"s11@0 s14@2 "),
    (b"...)", b"s18@0 s12@2 "),
    (b"(...)", b"s11@0 s18@2 s10@4 "),
    (b"..)", b"s18@0 s10@2 "),
];

#[test]
fn texts_have_tokens(rt: HostRuntime) -> Result<(), Fail> {
    for table in [
        TEXTS.as_slice(),
        COMMENTS.as_slice(),
        STRINGS.as_slice(),
        ALTERNATIVES.as_slice(),
    ] {
        for (text, wanted) in table {
            let is = is_scanned_as(rt.alloc(), text, wanted)?;
            assert!(rt; is, "{text:?}");
        }
    }
    Ok(())
}

const FAULTS: [(&[u8], ScanFault); 25] = [
    (b"a $", ScanFault::BadCharacter(2)),
    (b"_", ScanFault::BadCharacter(0)),
    (b"a}", ScanFault::BadCharacter(1)),
    (b"{{}1}", ScanFault::BadCharacter(4)),
    (b"{}\0", ScanFault::BadCharacter(2)),
    (b"'a'\x80", ScanFault::BadCharacter(3)),
    (b"1\x0b'", ScanFault::BadCharacter(1)),
    (b"\"a\"", ScanFault::BadCharacter(0)),
    (b"a {b", ScanFault::OpenComment(2)),
    (b"(*)", ScanFault::OpenComment(0)),
    (b"1 (*) 2", ScanFault::OpenComment(2)),
    (b"{ * )", ScanFault::OpenComment(0)),
    (b"{}{", ScanFault::OpenComment(2)),
    (b"'a", ScanFault::OpenString(0)),
    (b"'", ScanFault::OpenString(0)),
    (b"''", ScanFault::OpenString(0)),
    (b"x''a'", ScanFault::OpenString(1)),
    (b"'''", ScanFault::OpenString(0)),
    (b"'a''", ScanFault::OpenString(0)),
    (b"'a\n'", ScanFault::OpenString(0)),
    (b"'a\x7f'", ScanFault::OpenString(0)),
    (b"'a' 'b\r'", ScanFault::OpenString(4)),
    (b"32768", ScanFault::NumberTooLarge(0)),
    (
        b"1 000000000000000000000099999",
        ScanFault::NumberTooLarge(2),
    ),
    (b"{}99999'", ScanFault::NumberTooLarge(2)),
];

#[test]
fn texts_have_faults(rt: HostRuntime) {
    for (text, wanted) in &FAULTS {
        let found = scan(rt.alloc(), text).err();
        assert_eq!(rt; found, Some(*wanted), "{text:?}");
    }
}

// The longest text, and one byte more. The length is tried before all else.
#[test]
fn long_texts_are_refused(rt: HostRuntime) -> Result<(), Fail> {
    let mut text = vec![in rt.alloc(); b' '; MAX_TEXT_BYTES]?;
    let longest = scan(rt.alloc(), &text).err();
    text.push(b'$')?;
    let longer = scan(rt.alloc(), &text).err();
    assert!(rt; longest == None && longer == Some(ScanFault::TextTooLong));
    Ok(())
}
