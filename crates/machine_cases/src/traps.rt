//! Traps that are taken.

use pdp11_machine::Machine;
use std::alloc::Global;
use std::test::Fail;

const START: u16 = 0o1000;

const TOP: u16 = 0o2000;

// A machine with a vector of TRAP, before it takes a trap.
fn machine_before(alloc: Global) -> Result<Machine, Fail> {
    let mut machine = Machine::new(alloc)?;
    machine.poke(0o34, 0o4000);
    machine.poke(0o36, 0o341);
    machine.set_register(6, TOP);
    machine.set_register(7, START);
    machine.set_status(0o12);
    Ok(machine)
}

// PC, PS, SP and the two topmost words of the stack after the trap.
fn after_trap(alloc: Global) -> Result<[u16; 5], Fail> {
    let mut machine = machine_before(alloc)?;
    let _taken = machine.take_trap(0o34);
    Ok([
        machine.register(7),
        machine.status(),
        machine.register(6),
        machine.peek(TOP - 4),
        machine.peek(TOP - 2),
    ])
}

// Whether traps are taken: of a vector of which the second word is outside, of an odd one, and with the stack outside.
fn taken(alloc: Global) -> Result<[bool; 3], Fail> {
    let mut machine = machine_before(alloc)?;
    let outside = machine.take_trap(0o157776);
    let odd = machine.take_trap(0o35);
    machine.set_register(6, 2);
    Ok([outside, odd, machine.take_trap(0o34)])
}

#[test]
fn traps_are_taken_where_their_words_are(rt: HostRuntime) -> Result<(), Fail> {
    let words = after_trap(rt.alloc())?;
    assert!(rt; words == [0o4000, 0o341, TOP - 4, START, 0o12]);
    let taken = taken(rt.alloc())?;
    assert!(rt; taken == [false; 3]);
    Ok(())
}
