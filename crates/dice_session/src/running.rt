//! Running the program.
ghost use Rattle.std.specs.Prelude.{◌≡◌, ◌≤◌, ◌++◌, [], IfOk, OnOk, OnErr};
ghost use Rattle.pascal_semantics.specs.State.{State};
ghost use Rattle.pascal_semantics.specs.Valid.{IsProgram};
ghost use Rattle.target_monitor.specs.Go.{go_result};
ghost use Rattle.dice_session.specs.World.{written_part};
ghost use Rattle.dice_session.specs.Places.{ending_text, ends};
ghost use Rattle.dice_session.specs.Simulates.{CanRunFrom, Ran};

use crate::reply::{push_ending, push_written};
use console_service::{CONSOLE_ROOM_BYTES, Console};
use dice_base::{NoMemory, Text};
use pascal_semantics::Statement;
use pdp11_machine::Machine;
use std::alloc::Global;
use target_monitor::{GoEnd, go};

/// Runs the program over at most so many gates, from a state that it can go on from. The reply, with what was written,
/// goes behind `out`. Tells whether the program has ended or is in error.
pub(crate) fn run(
    alloc: Global,
    statements: &[Statement],
    gates: u32,
    machine: &mut Machine,
    console: &mut Console,
    out: &mut Text,
) -> Result<bool, NoMemory>
    requires program { IsProgram statements.now }
    requires some { 1 ≤ gates }
    ensures { IfOk result (λ over. (s : State) → CanRunFrom statements.now s machine.old console.old
        → Ran statements.now gates s over out.old out.new machine.new console.new) }
{
    let went = go(machine, console, gates, None);
    let place = (machine.register(7) / 2) as u32;
    let written = take_output(alloc, console)?;
    push_written(alloc, out, &written)?;
    push_ending(alloc, out, statements, went.end, place)?;
    Ok(ends(went.end))
}

// Whether a run that ends so comes to the end of the program, or to an error.
fn ends(end: GoEnd) -> bool
    ensures { result ≡ ends end }
{
    match end {
        GoEnd::Ended | GoEnd::Error(_) => true,
        GoEnd::Counted
        | GoEnd::AtBreak
        | GoEnd::MustDrain
        | GoEnd::Overrun
        | GoEnd::Bus
        | GoEnd::ConsoleFull => false,
    }
}

// All that was written, which the console then no longer holds.
fn take_output(alloc: Global, console: &mut Console) -> Result<Vec<u8>, NoMemory>
    ensures written { IfOk result (λ bytes. bytes.items ≡ console.old.output) }
    ensures empty { OnOk result (console.new.output ≡ []) }
    ensures kept { OnErr result (console.new ≡ console.old) }
{
    let mut bytes = vec![in alloc; 0; (CONSOLE_ROOM_BYTES - console.free()) as usize]?;
    console.drain(&mut bytes);
    Ok(bytes)
}
