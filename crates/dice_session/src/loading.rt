//! Loading a program.
ghost use Rattle.std.specs.Prelude.{◌≡◌, ◌≤◌, ◌++◌, [], length, OnOk, OnErr};
ghost use Rattle.console_service.specs.declared.memory_map.TheConstants.{CODE_ROOM_WORDS, CODE_WORD};
ghost use Rattle.pascal_semantics.specs.State.{loaded_state};
ghost use Rattle.pascal_semantics.specs.Valid.{IsProgram};
ghost use Rattle.dice_session.specs.World.{loaded_line};
ghost use Rattle.dice_session.specs.Places.{with_words, with_start};
ghost use Rattle.dice_session.specs.Simulates.{SimulatesRun};

use crate::reply::push_loaded;
use console_service::{CODE_BYTE, Console, MEMORY_END_BYTE};
use dice_base::{NoMemory, Text};
use image_plan::load_words;
use pascal_semantics::Statement;
use pdp11_machine::Machine;
use std::alloc::Global;

/// Loads a program: machine and console are made as new, whatever they were used for, and its blocks are written from
/// the begin of the code area on, so that the machine is ready to begin it. The reply goes behind `out`.
pub(crate) fn load(
    alloc: Global,
    statements: &[Statement],
    machine: &mut Machine,
    console: &mut Console,
    out: &mut Text,
) -> Result<(), NoMemory>
    requires { IsProgram statements.now }
    ensures reply { OnOk result (out.new ≡ out.old ++ loaded_line statements.now) }
    ensures simulates { OnOk result (SimulatesRun statements.now loaded_state machine.new) }
    ensures drained { OnOk result (console.new.output ≡ []) }
    ensures machine_kept { OnErr result (machine.new ≡ machine.old) }
    ensures console_kept { OnErr result (console.new ≡ console.old) }
{
    let words = load_words(alloc, statements)?;
    push_loaded(alloc, out, statements, words.len())?;
    console.reset();
    machine.reset();
    write_words(machine, &words);
    Ok(())
}

// Writes the words from the begin of the code area on, and sets SP and PC for a run from the begin.
#[tactic(auto, unfolding(crate::specs::Places::with_words))]
fn write_words(machine: &mut Machine, words: &[u16])
    requires { length words.now ≤ CODE_ROOM_WORDS }
    ensures { machine.new ≡ with_start (with_words machine.old CODE_WORD words.now) }
{
    let mut place = CODE_BYTE;
    for word in words {
        machine.poke(place, *word);
        place += 2;
    }
    machine.set_register(6, MEMORY_END_BYTE);
    machine.set_register(7, CODE_BYTE);
}
