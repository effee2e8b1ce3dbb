//! Each fate of an exchange.
ghost use Rattle.target_monitor.specs.Served.{HasForm};

use link_frames::{FrameBuf, write_request};
use monitor_link::{Fate, Heard, Link, Wire, link_fresh};
use std::alloc::Global;
use std::test::Fail;
use target_monitor::Request;

// The number that the answer to a request bears, and 0 where none is heard.
fn number_heard(wire: &mut Wire, number: u64, request: &Request) -> u8
    requires { HasForm request.now }
{
    let mut frame = FrameBuf::new();
    let mut got = FrameBuf::new();
    write_request(number, request, &mut frame);
    match wire.exchange(frame.as_slice(), &mut got) {
        Heard::Silence => 0,
        Heard::Answer => number_of(got.as_slice()),
    }
}

fn number_of(answer: &[u8]) -> u8 {
    if answer.len() > 2 { answer[2] } else { 0 }
}

// What is heard of two requests of which the second has this fate, and then of the second once more.
fn heard_by(alloc: Global, fate: Fate) -> Result<[u8; 3], Fail> {
    let mut wire = Wire::new(alloc)?;
    wire.schedule(alloc, &[Fate::Pass, fate])?;
    let first = number_heard(&mut wire, 1, &Request::Reset);
    let second = number_heard(&mut wire, 2, &Request::Go(6));
    let third = number_heard(&mut wire, 2, &Request::Go(6));
    Ok([first, second, third])
}

#[test]
fn fates(rt: HostRuntime) -> Result<(), Fail> {
    let cases = [
        (Fate::Pass, [1, 2, 2]),
        (Fate::RequestLost, [1, 0, 2]),
        (Fate::AnswerLost, [1, 0, 2]),
        (Fate::Twice, [1, 2, 2]),
        (Fate::Stale, [1, 1, 2]),
    ];
    for (fate, wanted) in cases {
        let heard = heard_by(rt.alloc(), fate)?;
        let is_right = heard == wanted;
        assert!(rt; is_right, "{heard:?}");
    }
    Ok(())
}

// The first two frames of kind 6 are lost, and no other; a link is fresh until something is asked over it.
#[test]
fn frames_of_a_kind_are_lost(rt: HostRuntime) -> Result<(), Fail> {
    let mut wire = Wire::new(rt.alloc())?;
    let was_fresh = link_fresh(&wire);
    wire.lose(6, 2);
    let heard = [
        number_heard(&mut wire, 1, &Request::Reset),
        number_heard(&mut wire, 2, &Request::Go(6)),
        number_heard(&mut wire, 2, &Request::Drain),
        number_heard(&mut wire, 3, &Request::Go(6)),
        number_heard(&mut wire, 3, &Request::Go(6)),
    ];
    let is_right = was_fresh && !link_fresh(&wire) && heard == [1, 0, 2, 0, 3];
    assert!(rt; is_right, "{heard:?}");
    Ok(())
}
