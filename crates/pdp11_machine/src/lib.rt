//! The emulated PDP-11/40: its memory, registers and status word, and one step. The instructions are those of
//! `pdp11_code`, and their arithmetic is that of `pdp11_arithmetic`.
#![tactic(auto)]

ghost use Rattle.std.specs.Prelude.{◌≡◌, ℕ, ◌+◌, ◌*◌, ◌/◌, ◌%◌, ◌<◌, IfOk, slice_index, length};
ghost use Rattle.pdp11_machine.specs.State.{MachineState, Flags, IsMachine, reg, with_reg, with_word, status_of, with_status, zero_machine};
ghost use Rattle.pdp11_arithmetic.specs.Bits.{bit_of};
ghost use Rattle.pdp11_machine.specs.TakeTrap.{trap_result};
ghost use Rattle.pdp11_machine.specs.Step.{machine_step};

mod control;
mod double;
mod extended;
mod operands;
mod reset;
mod single;
mod size;
mod step;
mod take_trap;
pub mod vectors;
mod words;

use dice_base::NoMemory;
pub use size::{MEMORY_BYTES, MEMORY_WORDS, REGISTERS};
use std::alloc::Global;
use std::marker::Model;

/// How a step ended.
#[derive(Clone, Copy, PartialEq, Eq)]
pub enum StepEnd {
    /// The machine went on.
    Went,
    /// It came to HALT.
    Halted,
    /// It came to a trap: the vector, and the instruction's word, which is 0 where the fetch of that word failed.
    Trap(u16, u16),
}

/// Where an operand stands: in a register, or at an address of the memory.
#[derive(Clone, Copy)]
enum Place {
    Register(u8),
    Cell(u16),
}

/// The machine. Addresses are in bytes, below `MEMORY_BYTES`.
#[derive(Drop)]
pub struct Machine {
    memory: Vec<u16>,
    registers: [u16; REGISTERS],
    negative: bool,
    zero: bool,
    overflow: bool,
    carry: bool,
    upper: u16,
}

impl Model for Machine {
    ghost use Rattle.std.specs.Prelude.{◌≡◌, ◌<◌, length};
    ghost use Rattle.pdp11_machine.specs.State.{MachineState};
    ghost use Rattle.pdp11_machine.specs.declared.size.TheConstants.{MEMORY_WORDS, REGISTERS};

    ghost Value = { MachineState };

    ghost view = { λ m. record { memory = m.memory.items; registers = m.registers; flags = record { negative = m.negative; zero = m.zero; overflow = m.overflow; carry = m.carry }; upper = m.upper } };

    ghost invariant = { λ m. (length m.memory.items ≡ MEMORY_WORDS) × (length m.registers ≡ REGISTERS) × (m.upper < 4096) };
}

impl Machine {
    /// A machine whose memory, registers and status word are zero.
    #[tactic(auto, unfolding(crate::specs::State::zero_machine))]
    pub fn new(alloc: Global) -> Result<Machine, NoMemory>
        ensures { IfOk result (λ m. m ≡ zero_machine) }
    {
        Ok(Machine {
            memory: vec![in alloc; 0; MEMORY_WORDS as usize]?,
            registers: [0; REGISTERS],
            negative: false,
            zero: false,
            overflow: false,
            carry: false,
            upper: 0,
        })
    }

    /// The word at an even address.
    pub fn peek(&self, place: u16) -> u16
        requires even { place % 2 ≡ 0 }
        requires inside { place < MEMORY_BYTES }
        ensures word { result ≡ slice_index self.now.memory (place / 2) }
        ensures machine { IsMachine self.now }
    {
        self.memory[(place / 2) as usize]
    }

    /// Writes the word at an even address.
    pub fn poke(&mut self, place: u16, word: u16)
        requires even { place % 2 ≡ 0 }
        requires inside { place < MEMORY_BYTES }
        ensures { self.new ≡ with_word self.old place word }
    {
        self.memory[(place / 2) as usize] = word;
    }

    /// R0 to R5, SP by 6 and PC by 7.
    pub fn register(&self, number: u8) -> u16
        requires { number < REGISTERS }
        ensures word { result ≡ reg self.now number }
        ensures machine { IsMachine self.now }
    {
        self.registers[number as usize]
    }

    /// Sets a register.
    pub fn set_register(&mut self, number: u8, word: u16)
        requires { number < REGISTERS }
        ensures { self.new ≡ with_reg self.old number word }
    {
        self.registers[number as usize] = word;
    }

    /// The processor status word.
    pub fn status(&self) -> u16
        ensures word { result ≡ status_of self.now }
        ensures machine { IsMachine self.now }
    {
        16 * self.upper
            + 8 * bit(self.negative)
            + 4 * bit(self.zero)
            + 2 * bit(self.overflow)
            + bit(self.carry)
    }

    /// Sets the processor status word. All its bits are kept, and only the flags have an effect.
    pub fn set_status(&mut self, word: u16)
        ensures { self.new ≡ with_status self.old word }
    {
        self.negative = word / 8 % 2 == 1;
        self.zero = word / 4 % 2 == 1;
        self.overflow = word / 2 % 2 == 1;
        self.carry = word % 2 == 1;
        self.upper = word / 16;
    }

    /// Carries out the instruction at PC. A trap pushes nothing yet.
    pub fn step(&mut self) -> StepEnd
        ensures { (self.new, result) ≡ machine_step self.old }
    {
        self.next_instruction()
    }

    /// Pushes the status word and PC, and loads them from the vector. False, and nothing is changed, exactly where
    /// the two words of the stack or the two words of the vector cannot be reached.
    pub fn take_trap(&mut self, vector: u16) -> bool
        ensures { (self.new, result) ≡ trap_result vector self.old }
    {
        self.go_to_vector(vector)
    }
}

fn bit(flag: bool) -> u16
    ensures { result ≡ bit_of flag }
{
    if flag { 1 } else { 0 }
}
