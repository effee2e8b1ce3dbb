//! One instruction.

ghost use Rattle.std.specs.Prelude.{◌≡◌, ℕ, ◌<◌, Some, None};
ghost use Rattle.pdp11_code.specs.Write.{IsInstr};
ghost use Rattle.pdp11_machine.specs.State.{MachineState};
ghost use Rattle.pdp11_machine.specs.Step.{end_at, after_bare, after_instruction, machine_step};

use crate::{Machine, StepEnd, vectors};
use pdp11_code::{Instr, decode};

impl Machine {
    pub(crate) fn next_instruction(&mut self) -> StepEnd
        ensures { (self.new, result) ≡ machine_step self.old }
    {
        let Some(word) = self.fetch() else {
            return StepEnd::Trap(vectors::BUS_ERROR, 0);
        };
        match decode(&[word, 0, 0]) {
            None => StepEnd::Trap(vectors::RESERVED, word),
            Some((instr, _)) => self.carry_out(&instr, word),
        }
    }

    fn carry_out(&mut self, instr: &Instr, word: u16) -> StepEnd
        requires { IsInstr instr.now }
        ensures { (self.new, result) ≡ after_instruction instr.now word self.old }
    {
        match instr {
            Instr::Two(op, high, source, target) => end_of(
                word,
                self.two(*op, *high, source, target),
            ),
            Instr::One(op, high, target) => end_of(word, self.one(*op, *high, target)),
            Instr::Extended(op, register, operand) => {
                end_of(word, self.extended(*op, *register, operand))
            }
            Instr::Jsr(register, target) => end_of(word, self.call(*register, target)),
            Instr::Rts(register) => end_of(word, self.return_by(*register)),
            Instr::Sob(register, back) => {
                self.count_down(*register, *back);
                StepEnd::Went
            }
            Instr::Branch(high, low) => {
                self.branch(*high, *low);
                StepEnd::Went
            }
            Instr::Emt(_) => StepEnd::Trap(vectors::EMULATOR, word),
            Instr::Trap(_) => StepEnd::Trap(vectors::PROGRAM, word),
            Instr::Flags(set, bits) => {
                self.set_codes(*set, *bits);
                StepEnd::Went
            }
            Instr::Bare(low) => self.bare(*low, word),
        }
    }

    fn bare(&mut self, low: u8, word: u16) -> StepEnd
        ensures { (self.new, result) ≡ after_bare low word self.old }
    {
        match low {
            0 => StepEnd::Halted,
            3 => StepEnd::Trap(vectors::BREAKPOINT, word),
            4 => StepEnd::Trap(vectors::INPUT_OUTPUT, word),
            _ => end_of(word, self.resume()),
        }
    }
}

// A bus trap ends the step.
fn end_of(word: u16, part: Option<()>) -> StepEnd
    ensures { result ≡ end_at word part }
{
    match part {
        Some(_) => StepEnd::Went,
        None => StepEnd::Trap(vectors::BUS_ERROR, word),
    }
}
