//! Go: a run that counts gates.
ghost use Rattle.std.specs.Prelude.{◌≡◌, ◌+◌, ◌≤◌, ◌%◌, Some};
ghost use Rattle.pdp11_machine.specs.State.{reg, word_at, with_reg};
ghost use Rattle.console_service.specs.Run.{is_gate_word};
ghost use Rattle.target_monitor.specs.Go.{end_of, is_break_word, must_drain, to_gate, run_on_the_way, go_result};

use console_service::{BPT, Console, NOP, Stop, execute};
use pdp11_machine::{MEMORY_BYTES, Machine};

/// How a run ended.
#[derive(Clone, Copy, PartialEq, Eq)]
pub enum GoEnd {
    /// As many gates were passed as were asked for, and the next one is reached.
    Counted,
    /// A gate with a break is reached.
    AtBreak,
    /// The program has ended.
    Ended,
    /// The program is in the run-time error of this number.
    Error(u16),
    /// The output has less free room than is wanted at a gate, and is to be drained first.
    MustDrain,
    /// No gate came within 20,000,000 instructions.
    Overrun,
    /// The machine halted, or met a trap that nothing serves.
    Bus,
    /// The output is longer than its free room.
    ConsoleFull,
}

/// How a run ended, and the number of gates that it passed.
#[derive(Clone, Copy, PartialEq, Eq)]
pub struct Went {
    pub end: GoEnd,
    pub passed: u32,
}

const INSTRUCTION_LIMIT: u32 = 20_000_000;

/// Runs the machine over at most so many gates. A gate that stands at PC is passed first and counted. At each newly
/// reached gate the run ends as `Counted` where all were passed, or else as `AtBreak` where a break stands there, or
/// else as `MustDrain` where the output has fewer than `room` free bytes, or else passes it. `MustDrain` comes also at
/// the beginning, before anything is passed; without a room it never comes. The other ends come before the next gate.
/// Takes no memory.
pub fn go(machine: &mut Machine, console: &mut Console, gates: u32, room: Option<u32>) -> Went
    requires { 1 ≤ gates }
    ensures run { (machine.new, console.new, result) ≡ go_result room gates machine.old console.old }
    ensures few { result.passed ≤ gates }
{
    if must_drain(console, room) {
        Went {
            end: GoEnd::MustDrain,
            passed: 0,
        }
    } else if at_gate(machine) {
        pass_gate(machine);
        run_gates(machine, console, 1, gates, room)
    } else {
        run_gates(machine, console, 0, gates, room)
    }
}

// The rest of a run that has passed so many gates, where it is on the way to the next one.
fn run_gates(
    machine: &mut Machine,
    console: &mut Console,
    first: u32,
    gates: u32,
    room: Option<u32>,
) -> Went
    requires { first ≤ gates }
    ensures run { (machine.new, console.new, result) ≡ run_on_the_way room gates first (machine.old, console.old) }
    ensures few { result.passed ≤ gates }
{
    for passed in first..gates {
        if let Some(end) = run_to_gate(machine, console, INSTRUCTION_LIMIT) {
            return Went { end, passed };
        }
        if at_break(machine) {
            return Went {
                end: GoEnd::AtBreak,
                passed,
            };
        }
        if must_drain(console, room) {
            return Went {
                end: GoEnd::MustDrain,
                passed,
            };
        }
        pass_gate(machine);
    }
    let end = run_to_gate(machine, console, INSTRUCTION_LIMIT).unwrap_or(GoEnd::Counted);
    Went { end, passed: gates }
}

// Whether the output has fewer free bytes than are wanted, if any are.
fn must_drain(console: &Console, room: Option<u32>) -> bool
    ensures { result ≡ must_drain room console.now }
{
    match room {
        None => false,
        Some(room) => console.free() < room,
    }
}

// Executes instructions up to a gate, which is not executed: `None` there.
fn run_to_gate(machine: &mut Machine, console: &mut Console, limit: u32) -> Option<GoEnd>
    ensures { (machine.new, console.new, result) ≡ to_gate limit (machine.old, console.old) }
{
    for _executed in 0..limit {
        if at_gate(machine) {
            return None;
        }
        if let Some(stop) = execute(machine, console) {
            return Some(end_at(stop));
        }
    }
    if at_gate(machine) {
        None
    } else {
        Some(GoEnd::Overrun)
    }
}

fn end_at(stop: Stop) -> GoEnd
    ensures { result ≡ end_of stop }
{
    match stop {
        Stop::Ended => GoEnd::Ended,
        Stop::Error(error) => GoEnd::Error(error),
        Stop::Bus => GoEnd::Bus,
        Stop::ConsoleFull => GoEnd::ConsoleFull,
    }
}

// The word at PC, where there is one.
fn word_at_pc(machine: &Machine) -> Option<u16>
    ensures { result ≡ word_at machine.now (reg machine.now 7) }
{
    let place = machine.register(7);
    if place % 2 == 0 && place < MEMORY_BYTES {
        Some(machine.peek(place))
    } else {
        None
    }
}

fn at_gate(machine: &Machine) -> bool
    ensures { result ≡ is_gate_word (word_at machine.now (reg machine.now 7)) }
{
    match word_at_pc(machine) {
        None => false,
        Some(word) => word == NOP || word == BPT,
    }
}

fn at_break(machine: &Machine) -> bool
    ensures { result ≡ is_break_word (word_at machine.now (reg machine.now 7)) }
{
    match word_at_pc(machine) {
        None => false,
        Some(word) => word == BPT,
    }
}

fn pass_gate(machine: &mut Machine)
    ensures { machine.new ≡ with_reg machine.old 7 ((reg machine.old 7 + 2) % 65536) }
{
    let place = machine.register(7).wrapping_add(2);
    machine.set_register(7, place);
}
