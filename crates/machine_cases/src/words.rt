//! First words by their kinds, and instructions that are written as they were read.

use pdp11_code::{Instr, decode, encode};

// The kinds of the first words, each from this word up to the next line's. A letter is a kind: of `2` operands, of a
// register and an operand (`x`), of `1` operand, JSR and RTS (`j`, `r`), SOB (`s`), branches (`b`), EMT (`e`), TRAP
// (`t`), condition codes (`c`), no field (`n`); `-` is reserved.
const KINDS: [(u32, u8); 53] = [
    (0o000000, b'n'),
    (0o000001, b'-'),
    (0o000002, b'n'),
    (0o000005, b'-'),
    (0o000006, b'n'),
    (0o000007, b'-'),
    (0o000110, b'1'),
    (0o000200, b'r'),
    (0o000210, b'-'),
    (0o000240, b'c'),
    (0o000300, b'1'),
    (0o000400, b'b'),
    (0o004000, b'-'),
    (0o004010, b'j'),
    (0o004100, b'-'),
    (0o004110, b'j'),
    (0o004200, b'-'),
    (0o004210, b'j'),
    (0o004300, b'-'),
    (0o004310, b'j'),
    (0o004400, b'-'),
    (0o004410, b'j'),
    (0o004500, b'-'),
    (0o004510, b'j'),
    (0o004600, b'-'),
    (0o004610, b'j'),
    (0o004700, b'-'),
    (0o004710, b'j'),
    (0o005000, b'1'),
    (0o006400, b'-'),
    (0o006700, b'1'),
    (0o007000, b'-'),
    (0o010000, b'2'),
    (0o070000, b'x'),
    (0o071100, b'-'),
    (0o071200, b'x'),
    (0o071300, b'-'),
    (0o071400, b'x'),
    (0o071500, b'-'),
    (0o071600, b'x'),
    (0o071700, b'-'),
    (0o072000, b'x'),
    (0o073000, b'-'),
    (0o074000, b'x'),
    (0o075000, b'-'),
    (0o077000, b's'),
    (0o100000, b'b'),
    (0o104000, b'e'),
    (0o104400, b't'),
    (0o105000, b'1'),
    (0o106400, b'-'),
    (0o110000, b'2'),
    (0o170000, b'-'),
];

fn kind_in_table(word: u32) -> u8 {
    let mut kind = b'-';
    for (first, next) in KINDS {
        if first <= word {
            kind = next;
        }
    }
    kind
}

fn kind_read(word: u16) -> u8 {
    match decode(&[word, 0o4, 0o4]) {
        None => b'-',
        Some((Instr::Two(_, _, _, _), _)) => b'2',
        Some((Instr::Extended(_, _, _), _)) => b'x',
        Some((Instr::One(_, _, _), _)) => b'1',
        Some((Instr::Jsr(_, _), _)) => b'j',
        Some((Instr::Rts(_), _)) => b'r',
        Some((Instr::Sob(_, _), _)) => b's',
        Some((Instr::Branch(_, _), _)) => b'b',
        Some((Instr::Emt(_), _)) => b'e',
        Some((Instr::Trap(_), _)) => b't',
        Some((Instr::Flags(_, _), _)) => b'c',
        Some((Instr::Bare(_), _)) => b'n',
    }
}

#[test]
fn each_first_word_is_read_as_its_kind(rt: HostRuntime) {
    for word in 0..65536u32 {
        assert_eq!(rt; kind_read(word as u16), kind_in_table(word), "at {word}");
    }
}

// The words as they are written again, behind three of 7.
fn again(words: &[u16]) -> [u16; 3] {
    let mut out = [7; 3];
    if let Some((instr, _)) = decode(words) {
        let _number = encode(&instr, &mut out);
    }
    out
}

#[test]
fn instructions_are_read_and_written(rt: HostRuntime) {
    // MOV #12,-(SP), also where a word follows and where its second word is missing; CMP @10(R1),@#20
    let made = [
        again(&[0o012746, 0o12, 0o240]),
        again(&[0o012746]),
        again(&[0o027137, 0o10, 0o20]),
    ];
    assert!(rt; made == [[0o012746, 0o12, 7], [7, 7, 7], [0o027137, 0o10, 0o20]]);
}
