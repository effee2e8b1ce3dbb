//! The requests of the monitor, compared with what a model of it in another language answers.
ghost use Rattle.std.specs.Prelude.{◌≤◌, ◌<◌, length};
ghost use Rattle.target_monitor.specs.Served.{HasForm};

use std::test::Fail;
use target_monitor::{GoEnd, Piece, Reply, Request, Target, Words};

fn asked(target: &mut Target, request: &Request) -> Reply
    requires { HasForm request.now }
{
    let mut reply = Reply::Bad;
    target.answer(request, &mut reply);
    reply
}

fn is_done(reply: &Reply) -> bool {
    match reply {
        Reply::Done => true,
        Reply::Bad | Reply::Words(_) | Reply::Went(_, _) | Reply::Bytes(_) => false,
    }
}

// Whether a word may be written at this place.
fn is_poked(target: &mut Target, place: u16) -> bool {
    let mut words = Words::new();
    words.push(1);
    is_done(&asked(target, &Request::Poke(place, words)))
}

// Whether so many words may be read at this place.
fn is_peeked(target: &mut Target, place: u16, count: u16) -> bool
    requires some { 1 ≤ count }
    requires few { count ≤ 500 }
{
    match asked(target, &Request::Peek(place, count)) {
        Reply::Words(words) => words.as_slice().len() == count as usize,
        Reply::Done | Reply::Went(_, _) | Reply::Bytes(_) | Reply::Bad => false,
    }
}

#[test]
fn places_out_of_their_area_are_refused(rt: HostRuntime) -> Result<(), Fail> {
    let mut target = Target::new(rt.alloc())?;
    let mut are_right = true;
    for (place, is_right) in [
        (512, true),
        (27_134, true),
        (510, false),
        (513, false),
        (27_136, false),
    ] {
        are_right = are_right && is_poked(&mut target, place) == is_right;
    }
    are_right = are_right && is_peeked(&mut target, 56_344, 500);
    are_right = are_right && !is_peeked(&mut target, 56_346, 500);
    assert!(rt; are_right);
    Ok(())
}

// Writes a program of four words at the begin of the code, and makes the target ready for it.
fn load(target: &mut Target, program: [u16; 4]) -> bool {
    let mut words = Words::new();
    words.push(program[0]);
    words.push(program[1]);
    words.push(program[2]);
    words.push(program[3]);
    let reset = is_done(&asked(target, &Request::Reset));
    reset && is_done(&asked(target, &Request::Poke(512, words)))
}

// How a Go over so many gates ends, and the gates that it passed.
fn run(target: &mut Target, gates: u16) -> Option<(GoEnd, u16)>
    requires some { 1 ≤ gates }
    requires few { gates ≤ 4096 }
{
    match asked(target, &Request::Go(gates)) {
        Reply::Went(end, passed) => Some((end, passed)),
        Reply::Done | Reply::Words(_) | Reply::Bytes(_) | Reply::Bad => None,
    }
}

// How many bytes a Drain takes out of the output.
fn drained(target: &mut Target) -> usize {
    match asked(target, &Request::Drain) {
        Reply::Bytes(piece) => piece.as_slice().len(),
        Reply::Done | Reply::Words(_) | Reply::Went(_, _) | Reply::Bad => 0,
    }
}

#[test]
fn a_program_is_run_from_gate_to_gate(rt: HostRuntime) -> Result<(), Fail> {
    let mut target = Target::new(rt.alloc())?;
    let is_ready = load(&mut target, [0o240, 0o104010, 0o240, 0o104000])
        && is_done(&asked(&mut target, &Request::Gate(516, true)))
        && !is_done(&asked(&mut target, &Request::Gate(514, true)));
    let at_break = run(&mut target, 2) == Some((GoEnd::AtBreak, 1));
    let ended = run(&mut target, 1) == Some((GoEnd::Ended, 1)) && run(&mut target, 1) == None;
    let written = drained(&mut target) == 1 && drained(&mut target) == 0;
    assert!(rt; is_ready && at_break && ended && written);
    Ok(())
}

// A program without end, which writes a line end after each pass of its gate.
const LINES: [u16; 4] = [0o240, 0o104010, 0o775, 0];

#[test]
fn output_is_drained_before_it_is_full(rt: HostRuntime) -> Result<(), Fail> {
    let mut target = Target::new(rt.alloc())?;
    let mut are_right = load(&mut target, LINES);
    for _times in 0..8 {
        are_right = are_right && run(&mut target, 4096) == Some((GoEnd::Counted, 4096));
    }
    are_right = are_right && run(&mut target, 4096) == Some((GoEnd::MustDrain, 1));
    are_right = are_right && run(&mut target, 4096) == Some((GoEnd::MustDrain, 0));
    are_right = are_right && drained(&mut target) == 1000;
    are_right = are_right && run(&mut target, 4096) == Some((GoEnd::MustDrain, 1000));
    assert!(rt; are_right);
    Ok(())
}

// Whether two bytes may be fed with this total.
fn is_fed(target: &mut Target, total: u16) -> bool {
    let mut piece = Piece::new();
    piece.push(b'4');
    piece.push(b'2');
    is_done(&asked(target, &Request::Feed(total, piece)))
}

#[test]
fn input_is_fed_by_its_total(rt: HostRuntime) -> Result<(), Fail> {
    let mut target = Target::new(rt.alloc())?;
    let fed = is_fed(&mut target, 2) && is_fed(&mut target, 65_534);
    let refused = is_fed(&mut target, 1) || is_fed(&mut target, 65_535);
    let registers = match asked(&mut target, &Request::Registers) {
        Reply::Words(words) => words.as_slice() == [0; 9].as_slice(),
        Reply::Done | Reply::Went(_, _) | Reply::Bytes(_) | Reply::Bad => false,
    };
    assert!(rt; fed && !refused && registers);
    Ok(())
}
