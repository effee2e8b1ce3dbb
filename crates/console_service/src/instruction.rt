//! One instruction of the machine, with the service that it asks for.
ghost use Rattle.std.specs.Prelude.{◌≡◌};
ghost use Rattle.console_service.specs.Run.{run_step, instruction, after_trap};

use crate::{Console, Served, services};
use pdp11_machine::{Machine, StepEnd, vectors};

/// Why a run stops at an instruction.
#[derive(Clone, Copy)]
pub enum Stop {
    /// The program has ended.
    Ended,
    /// The program is in the run-time error of this number.
    Error(u16),
    /// The machine halted, or met a trap that nothing serves.
    Bus,
    /// The output is longer than its free room.
    ConsoleFull,
}

/// Executes one instruction, and the service where it is an EMT of a built one. A TRAP 1 to 14 is the run-time
/// error of that number. `None` where the run may go on.
pub fn execute(machine: &mut Machine, console: &mut Console) -> Option<Stop>
    ensures { run_step (machine.new, console.new) result ≡ instruction (machine.old, console.old) }
{
    match machine.step() {
        StepEnd::Went => None,
        StepEnd::Halted => Some(Stop::Bus),
        StepEnd::Trap(vector, word) => trapped(vector, (word % 256) as u8, machine, console),
    }
}

fn trapped(vector: u16, number: u8, machine: &mut Machine, console: &mut Console) -> Option<Stop>
    ensures { run_step (machine.new, console.new) result ≡ after_trap vector number machine.old console.old }
{
    let is_service = number == services::PROGRAM_END
        || number == services::WRITE_INTEGER
        || number == services::WRITE_LINE_END;
    if vector == vectors::EMULATOR && is_service {
        match console.serve(number, machine) {
            Served::Done => None,
            Served::Finished => Some(Stop::Ended),
            Served::Error(error) => Some(Stop::Error(error as u16)),
            Served::Full => Some(Stop::ConsoleFull),
            Served::BadPlace => Some(Stop::Bus),
        }
    } else if vector == vectors::PROGRAM && number >= 1 && number <= services::MAX_ERROR {
        Some(Stop::Error(number as u16))
    } else {
        Some(Stop::Bus)
    }
}
