//! Random bytes, and the answers that another model of the monitor gives to them.
ghost use Rattle.std.specs.Prelude.{◌<◌};

use link_frames::{FrameBuf, MAX_FRAME_BYTES};
use monitor_link::{Heard, TargetEnd};
use std::alloc::Global;
use std::test::Fail;

const PLACES: [u16; 10] = [
    512, 514, 520, 20_992, 27_134, 27_136, 513, 57_342, 56_346, 0,
];

// NOP, BPT, EMT 8, EMT 0, TRAP 3 and HALT: what runs over them ends.
const WORDS: [u16; 8] = [0o240, 0o240, 0o3, 0o104010, 0o104000, 0o104403, 0, 0o240];

const COUNTS: [u16; 6] = [1, 2, 3, 500, 501, 0];

const GATES: [u16; 6] = [1, 2, 3, 4_096, 4_097, 0];

// How far the number of a frame is from the last one.
const STEPS: [u32; 9] = [1, 1, 1, 1, 1, 0, 0, 2, 257];

#[derive(Drop)]
struct Draws {
    state: u32,
}

impl Draws {
    // A number below this one.
    fn next(&mut self, count: u32) -> u32
        requires { 0 < count }
        ensures { result < count }
    {
        self.state = self
            .state
            .wrapping_mul(1_664_525)
            .wrapping_add(1_013_904_223);
        (self.state >> 16) % count
    }

    fn byte(&mut self) -> u8 {
        self.next(256) as u8
    }
}

fn add(frame: &mut FrameBuf, byte: u8) {
    if frame.as_slice().len() < MAX_FRAME_BYTES {
        frame.push(byte);
    }
}

fn add_word(frame: &mut FrameBuf, word: u16) {
    add(frame, (word % 256) as u8);
    add(frame, (word / 256) as u8);
}

fn add_words(draws: &mut Draws, body: &mut FrameBuf) {
    let count = draws.next(5);
    for _ in 0..count {
        let word = draws.next(8);
        add_word(body, WORDS[word as usize]);
    }
}

fn add_piece(draws: &mut Draws, body: &mut FrameBuf) {
    let count = draws.next(5);
    let total = draws.next(8);
    add_word(body, total as u16);
    for _ in 0..count {
        let byte = draws.byte();
        add(body, byte);
    }
}

// A place, and behind it what the kind has there.
fn add_place(draws: &mut Draws, kind: u8, body: &mut FrameBuf) {
    let place = draws.next(10);
    add_word(body, PLACES[place as usize]);
    match kind {
        2 => add_words(draws, body),
        3 => {
            let count = draws.next(6);
            add_word(body, COUNTS[count as usize]);
        }
        _ => {
            let breaks = draws.next(3);
            add_word(body, breaks as u16);
        }
    }
}

fn body_of(draws: &mut Draws, kind: u8) -> FrameBuf {
    let mut body = FrameBuf::new();
    match kind {
        2 | 3 | 5 => add_place(draws, kind, &mut body),
        6 => {
            let gates = draws.next(6);
            add_word(&mut body, GATES[gates as usize]);
        }
        8 => add_piece(draws, &mut body),
        _ => {
            if draws.next(8) == 0 {
                let byte = draws.byte();
                add(&mut body, byte);
            }
        }
    }
    body
}

// A frame of this kind, with a number near the last one.
fn frame_of(draws: &mut Draws, last: u16, kind: u8) -> FrameBuf {
    let body = body_of(draws, kind);
    let step = draws.next(9);
    let number = last as u32 + STEPS[step as usize];
    let mut frame = FrameBuf::new();
    add(&mut frame, 0x44);
    add(&mut frame, kind);
    add(&mut frame, (number % 256) as u8);
    add(&mut frame, (number / 256 % 256) as u8);
    for _ in 0..6 {
        add(&mut frame, 0);
    }
    add_word(&mut frame, (body.as_slice().len() % 256) as u16);
    for byte in body.as_slice() {
        add(&mut frame, *byte);
    }
    frame
}

// The frame with another byte now and then, or with one byte less or more.
fn spoiled(draws: &mut Draws, frame: &FrameBuf) -> FrameBuf {
    let length = frame.as_slice().len();
    let mut byte = 0;
    let mut at = length;
    if draws.next(8) == 0 && length > 0 && length < 1_000 {
        byte = draws.byte();
        at = draws.next(length as u32) as usize;
    }
    let cut = draws.next(16);
    let kept = if cut == 0 {
        length.saturating_sub(1)
    } else {
        length
    };
    let mut spoiled = FrameBuf::new();
    for (index, old) in frame.as_slice().iter().enumerate() {
        if index < kept {
            add(&mut spoiled, if index == at { byte } else { *old });
        }
    }
    if cut == 1 {
        let more = draws.byte();
        add(&mut spoiled, more);
    }
    spoiled
}

fn hash_of(hash: u32, answer: &[u8]) -> u32 {
    let mut hash = hash;
    for byte in answer {
        hash = hash.wrapping_mul(31).wrapping_add(*byte as u32);
    }
    hash
}

fn number_of(answer: &[u8]) -> u16 {
    if answer.len() > 3 {
        answer[2] as u16 + 256 * answer[3] as u16
    } else {
        0
    }
}

// A number that all answers to 1,000 frames make, half of which are of this kind.
fn answers_hash(alloc: Global, kind: u8) -> Result<u32, Fail> {
    let mut draws = Draws {
        state: kind as u32 + 1,
    };
    let mut end = TargetEnd::new(alloc)?;
    let mut got = FrameBuf::new();
    let mut last = 0;
    let mut hash = 0;
    for _ in 0..1_000 {
        let is_own = draws.next(2) == 0;
        let this = if is_own { kind } else { draws.next(9) as u8 };
        let whole = frame_of(&mut draws, last, this);
        let frame = spoiled(&mut draws, &whole);
        match end.deliver(frame.as_slice(), &mut got) {
            Heard::Answer => {
                last = number_of(got.as_slice());
                hash = hash_of(hash, got.as_slice());
            }
            Heard::Silence => hash = hash.wrapping_mul(31).wrapping_add(257),
        }
    }
    Ok(hash)
}

#[test]
fn random_frames(rt: HostRuntime) -> Result<(), Fail> {
    let cases = [
        (1, 2_285_844_208),
        (2, 431_719_828),
        (3, 15_880_082),
        (4, 2_138_036_347),
        (5, 2_730_386_952),
        (6, 1_148_969_209),
        (7, 721_284_101),
        (8, 3_415_959_130),
    ];
    for (kind, wanted) in cases {
        let hash = answers_hash(rt.alloc(), kind)?;
        let is_right = hash == wanted;
        assert!(rt; is_right, "{kind}: {hash}");
    }
    Ok(())
}
