//! The bytes of frames, and bytes that are none.
use link_frames::{FrameBuf, read_answer, read_request, write_answer, write_request};
use monitor_link::{Heard, TargetEnd};
use std::alloc::Global;
use std::test::Fail;
use target_monitor::{GoEnd, Reply, Request};

const GO: &[u8] = b"\x44\x06\x01\0\0\0\0\0\0\0\x02\0\x06\0";

#[test]
fn a_request_as_bytes(rt: HostRuntime) -> Result<(), Fail> {
    let mut bytes = FrameBuf::new();
    write_request(3, &Request::Go(6), &mut bytes);
    let is_read = match read_request(bytes.as_slice()) {
        Some(read) => read.number == 3 && matches!(&read.request, Request::Go(6)),
        None => false,
    };
    let is_right = bytes.as_slice() == b"\x44\x06\x03\0\0\0\0\0\0\0\x02\0\x06\0".as_slice()
        && is_read;
    assert!(rt; is_right);
    Ok(())
}

#[test]
fn an_answer_as_bytes(rt: HostRuntime) -> Result<(), Fail> {
    let mut bytes = FrameBuf::new();
    write_answer(2, &Reply::Went(GoEnd::Error(3), 2), &mut bytes);
    let is_read = match read_answer(bytes.as_slice()) {
        Some(read) => read.number == 2 && matches!(&read.reply, Reply::Went(GoEnd::Error(3), 2)),
        None => false,
    };
    let is_right = bytes.as_slice()
        == b"\x52\x02\x02\0\0\0\0\0\0\0\x05\0\x03\x03\0\x02\0".as_slice()
        && is_read;
    assert!(rt; is_right);
    Ok(())
}

// Whether a target's end is silent to these bytes.
fn is_silent(end: &mut TargetEnd, bytes: &[u8]) -> bool {
    let mut got = FrameBuf::new();
    end.deliver(bytes, &mut got) == Heard::Silence && got.as_slice().len() == 0
}

// Whether it answers these bytes with those.
fn is_answered(end: &mut TargetEnd, bytes: &[u8], answer: &[u8]) -> bool {
    let mut got = FrameBuf::new();
    end.deliver(bytes, &mut got) == Heard::Answer && got.as_slice() == answer
}

// A frame of a kind with a body of so many bytes, all 2.
fn is_silent_to_body(end: &mut TargetEnd, kind: u8, length: u16) -> bool {
    let mut bytes = [2; 1_100];
    bytes[0] = 0x44;
    bytes[1] = kind;
    bytes[2] = 1;
    for at in 3..10 {
        bytes[at] = 0;
    }
    bytes[10] = (length % 256) as u8;
    bytes[11] = (length / 256) as u8;
    let end_of_frame = 12 + length as usize;
    end_of_frame <= 1_100 && is_silent(end, &bytes[..end_of_frame])
}

// The index of the first of these bytes to which a fresh end is not silent, and whether it then answers a good frame as if
// nothing had come before.
fn first_heard(alloc: Global, cases: &[&[u8]]) -> Result<(usize, bool), Fail> {
    let mut end = TargetEnd::new(alloc)?;
    let mut first = cases.len();
    for (at, bytes) in cases.iter().enumerate() {
        if !is_silent(&mut end, bytes) && first == cases.len() {
            first = at;
        }
    }
    for (kind, length) in [(2, 1_004), (8, 1_003), (2, 1_024), (2, 1_025)] {
        if !is_silent_to_body(&mut end, kind, length) {
            first = 0;
        }
    }
    let went = b"\x52\x02\x01\0\0\0\0\0\0\0\x05\0\x06\0\0\0\0".as_slice();
    let is_good = is_answered(&mut end, GO, went) && is_answered(&mut end, GO, went);
    Ok((first, is_good))
}

#[test]
fn bytes_that_are_no_frame(rt: HostRuntime) -> Result<(), Fail> {
    let cases = [
        b"".as_slice(), // empty
        b"\x44".as_slice(), // one byte
        b"\x44\x06\x01\0\0\0\0\0\0\0\x02".as_slice(), // a head cut short
        b"\x44\x06\x01\0\0\0\0\0\0\0\x02\0\x06".as_slice(), // a body cut short
        b"\x44\x06\x01\0\0\0\0\0\0\0\x02\0\x06\0\0".as_slice(), // one byte too many
        b"\x52\x06\x01\0\0\0\0\0\0\0\x02\0\x06\0".as_slice(), // the first byte of an answer
        b"\x45\x06\x01\0\0\0\0\0\0\0\x02\0\x06\0".as_slice(), // another first byte
        b"\x44\0\x01\0\0\0\0\0\0\0\0\0".as_slice(), // kind 0
        b"\x44\x09\x01\0\0\0\0\0\0\0\x02\0\0\x02".as_slice(), // kind 9
        b"\x44\xff\x01\0\0\0\0\0\0\0\0\0".as_slice(), // kind 255
        b"\x44\x06\0\0\0\0\0\0\0\0\x02\0\x06\0".as_slice(), // number 0
        b"\x44\x01\x01\0\0\0\0\0\0\0\x02\0\0\0".as_slice(), // Reset with a body
        b"\x44\x02\x01\0\0\0\0\0\0\0\0\0".as_slice(), // Poke without a body
        b"\x44\x02\x01\0\0\0\0\0\0\0\x02\0\0\x02".as_slice(), // Poke without words
        b"\x44\x02\x01\0\0\0\0\0\0\0\x05\0\0\x02\x01\0\x01".as_slice(), // Poke of an odd length
        b"\x44\x03\x01\0\0\0\0\0\0\0\x04\0\0\x02\0\0".as_slice(), // Peek of no words
        b"\x44\x03\x01\0\0\0\0\0\0\0\x04\0\0\x02\xf5\x01".as_slice(), // Peek of 501 words
        b"\x44\x03\x01\0\0\0\0\0\0\0\x03\0\0\x02\x01".as_slice(), // Peek with three bytes
        b"\x44\x03\x01\0\0\0\0\0\0\0\x05\0\0\x02\x01\0\0".as_slice(), // Peek with five bytes
        b"\x44\x04\x01\0\0\0\0\0\0\0\x02\0\0\0".as_slice(), // Registers with a body
        b"\x44\x05\x01\0\0\0\0\0\0\0\x04\0\0\x02\x02\0".as_slice(), // Gate to 2
        b"\x44\x05\x01\0\0\0\0\0\0\0\x04\0\0\x02\0\x01".as_slice(), // Gate to 256
        b"\x44\x05\x01\0\0\0\0\0\0\0\x03\0\0\x02\x01".as_slice(), // Gate with three bytes
        b"\x44\x06\x01\0\0\0\0\0\0\0\x02\0\0\0".as_slice(), // Go over no gate
        b"\x44\x06\x01\0\0\0\0\0\0\0\x02\0\x01\x10".as_slice(), // Go over 4,097 gates
        b"\x44\x06\x01\0\0\0\0\0\0\0\x01\0\x01".as_slice(), // Go with one byte
        b"\x44\x06\x01\0\0\0\0\0\0\0\x04\0\x01\0\0\0".as_slice(), // Go with four bytes
        b"\x44\x06\x01\0\0\0\0\0\0\0\0\0".as_slice(), // Go without a body
        b"\x44\x07\x01\0\0\0\0\0\0\0\x01\0\0".as_slice(), // Drain with a body
        b"\x44\x08\x01\0\0\0\0\0\0\0\x02\0\x01\0".as_slice(), // Feed without bytes
        b"\x44\x08\x01\0\0\0\0\0\0\0\x01\0\x01".as_slice(), // Feed with one byte
        b"\x44\x06\x01\0\0\0\0\0\0\0\x03\0\x06\0".as_slice(), // a length too great
        b"\x44\x06\x01\0\0\0\0\0\0\0\x01\0\x06\0".as_slice(), // a length too small
        b"\x44\x06\x01\0\0\0\0\0\0\0\x02\x01\x06\0".as_slice(), // a length greater by 256
        b"\x44\x06\x02\0\0\0\0\0\0\0\x02\0\x06\0".as_slice(), // number 2
        b"\x44\x06\x01\x01\0\0\0\0\0\0\x02\0\x06\0".as_slice(), // number 257
        b"\x44\x01\xff\xff\xff\xff\xff\xff\xff\xff\0\0".as_slice(), // number 2^64 - 1
    ];
    let (first, is_good) = first_heard(rt.alloc(), &cases)?;
    let is_right = first == 37 && is_good;
    assert!(rt; is_right, "{first}");
    Ok(())
}

// What comes after the first request: its answer again, also to another request with its number; nothing for a malformed
// frame with that number and for one past the next; then the next one.
#[test]
fn numbers(rt: HostRuntime) -> Result<(), Fail> {
    let mut end = TargetEnd::new(rt.alloc())?;
    let went = b"\x52\x02\x01\0\0\0\0\0\0\0\x05\0\x06\0\0\0\0".as_slice();
    let is_first = is_answered(&mut end, GO, went);
    let is_same = is_answered(&mut end, b"\x44\x01\x01\0\0\0\0\0\0\0\0\0", went);
    let is_malformed = is_silent(&mut end, b"\x44\x06\x01\0\0\0\0\0\0\0\x02\0\0\0");
    let is_past = is_silent(&mut end, b"\x44\x01\x03\0\0\0\0\0\0\0\0\0");
    let is_next = is_answered(
        &mut end,
        b"\x44\x01\x02\0\0\0\0\0\0\0\0\0",
        b"\x52\0\x02\0\0\0\0\0\0\0\0\0",
    );
    let is_old = is_silent(&mut end, GO);
    let is_right = is_first && is_same && is_malformed && is_past && is_next && is_old;
    assert!(rt; is_right);
    Ok(())
}
