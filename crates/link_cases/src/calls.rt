//! The host's end over a link in memory.
use monitor_link::{HostEnd, Wire};
use std::alloc::Global;
use std::test::Fail;
use target_monitor::{Reply, Request};

// A Go whose first eight frames are lost waits, is asked again, and is then answered.
fn waits_and_goes_on(alloc: Global) -> Result<[bool; 5], Fail> {
    let mut wire = Wire::new(alloc)?;
    let mut host = HostEnd::new();
    let mut reply = Reply::Bad;
    wire.lose(6, 8);
    let is_reset = host.ask(&mut wire, &Request::Reset, &mut reply).is_ok();
    if host.waits() {
        return Ok([is_reset, false, false, false, false]);
    }
    let is_down = host.ask(&mut wire, &Request::Go(6), &mut reply).is_err();
    let waits = host.waits();
    if !waits {
        return Ok([is_reset, is_down, waits, false, false]);
    }
    let is_asked = host.again(&mut wire, &mut reply).is_ok();
    Ok([
        is_reset,
        is_down,
        waits,
        is_asked,
        matches!(&reply, Reply::Went(_, _)),
    ])
}

#[test]
fn a_request_that_waits(rt: HostRuntime) -> Result<(), Fail> {
    let held = waits_and_goes_on(rt.alloc())?;
    let is_right = held == [true, true, true, true, true];
    assert!(rt; is_right, "{held:?}");
    Ok(())
}
