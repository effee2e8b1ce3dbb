//! A machine is made as new.
ghost use Rattle.std.specs.Prelude.{◌≡◌};
ghost use Rattle.pdp11_machine.specs.State.{zero_machine};

use crate::{Machine, REGISTERS};

impl Machine {
    /// Makes memory, registers and status word zero, as they are in a new machine.
    #[tactic(auto, unfolding(crate::specs::State::zero_machine))]
    pub fn reset(&mut self)
        ensures { self.new ≡ zero_machine }
    {
        self.memory.fill(0);
        self.registers = [0; REGISTERS];
        self.negative = false;
        self.zero = false;
        self.overflow = false;
        self.carry = false;
        self.upper = 0;
    }
}
