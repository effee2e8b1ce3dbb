//! What the flags say of words and bytes.

ghost use Rattle.std.specs.Prelude.{◌≡◌};
ghost use Rattle.pdp11_machine.specs.State.{MachineState};
ghost use Rattle.pdp11_machine.specs.Words.{flags_of, flags_by};

use crate::Machine;
use pdp11_arithmetic::half_of;

impl Machine {
    pub(crate) fn set_flags_by(&mut self, byte: bool, value: u16, overflow: bool, carry: bool)
        ensures { self.new ≡ record self.old { flags = flags_by byte value overflow carry } }
    {
        self.negative = value >= half_of(byte);
        self.zero = value == 0;
        self.overflow = overflow;
        self.carry = carry;
    }

    pub(crate) fn set_flags(&mut self, word: u16, overflow: bool, carry: bool)
        ensures { self.new ≡ record self.old { flags = flags_of word overflow carry } }
    {
        self.set_flags_by(false, word, overflow, carry);
    }
}
