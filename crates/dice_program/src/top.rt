//! A whole run: from a script to its transcript.
ghost use Rattle.std.specs.Prelude.{◌≡◌, ◌≤◌};
ghost use Rattle.std.specs.Process.{exit_status};
ghost use Rattle.pdp11_machine.specs.State.{zero_machine};
ghost use Rattle.dice_program.specs.Status.{number_of};
ghost use Rattle.dice_program.specs.Top.{Ended, EndsWith, Tells};

use crate::serve::{Ending, Fault, serve_script};
use crate::status::Status;
use dice_base::{Failed, Sink, Source, write_all};
use pdp11_machine::Machine;
use std::alloc::Global;
use std::process::ExitCode;

const USAGE: &[u8] = b"usage: dice11 [--plan TEXT or --big N]\n";

/// Runs the script that the source gives, on a machine as `Machine::new` gives it, and writes its transcript: the reply
/// to each line before the next line is acted on. There are no words on the command line, or else the usage line is
/// written and nothing is read.
pub fn dice11<S: Source, K: Sink>(
    alloc: Global,
    words: &[String],
    source: &mut S,
    sink: &mut K,
    machine: &mut Machine,
) -> Status
    requires unused { machine.old ≡ zero_machine }
    ensures ended { Ended words.now result (record {
      left = S.left source.old;
      left_then = S.left source.new;
      faults = S.faults source.old;
      faults_then = S.faults source.new;
    })
        (record {
          held = K.held sink.old;
          held_then = K.held sink.new;
          faults = K.faults sink.old;
          faults_then = K.faults sink.new;
        })
        machine.old machine.new }
    ensures read_later { S.faults source.old ≤ S.faults source.new }
    ensures write_later { K.faults sink.old ≤ K.faults sink.new }
{
    if !words.is_empty() {
        return match write_all(sink, USAGE) {
            Ok(()) => Status::Usage,
            Err(Failed) => Status::WriteFault,
        };
    }
    match serve_script(alloc, source, sink, machine) {
        Ok(Ending::Done) => Status::Done,
        Ok(Ending::TooMany) => Status::TooMany,
        Err(Fault::ReadFault) => Status::ReadFault,
        Err(Fault::WriteFault) => Status::WriteFault,
        Err(Fault::NoMemory) => Status::NoMemory,
    }
}

/// Writes the line of a status to `errors`, and gives its number as an exit status. A line that cannot be written is
/// lost: there is nowhere to tell it.
pub fn told<E: Sink>(errors: &mut E, status: Status) -> ExitCode
    ensures number { exit_status result ≡ number_of status }
    ensures line { Tells (record {
      held = E.held errors.old;
      held_then = E.held errors.new;
      faults = E.faults errors.old;
      faults_then = E.faults errors.new;
    }) status }
{
    let code = ExitCode::from(status.number());
    match write_all(errors, status.message()) {
        Ok(()) => code,
        Err(Failed) => code,
    }
}

/// Runs `dice11` and tells how it ended, by the exit status and by a line to `errors`.
pub fn run<S: Source, K: Sink, E: Sink>(
    alloc: Global,
    words: &[String],
    source: &mut S,
    sink: &mut K,
    machine: &mut Machine,
    errors: &mut E,
) -> ExitCode
    requires unused { machine.old ≡ zero_machine }
    ensures { EndsWith words.now (exit_status result) (record {
      left = S.left source.old;
      left_then = S.left source.new;
      faults = S.faults source.old;
      faults_then = S.faults source.new;
    })
        (record {
          held = K.held sink.old;
          held_then = K.held sink.new;
          faults = K.faults sink.old;
          faults_then = K.faults sink.new;
        })
        (record {
          held = E.held errors.old;
          held_then = E.held errors.new;
          faults = E.faults errors.old;
          faults_then = E.faults errors.new;
        })
        machine.old machine.new }
{
    let status = dice11(alloc, words, source, sink, machine);
    told(errors, status)
}
