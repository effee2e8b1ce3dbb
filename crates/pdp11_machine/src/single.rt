//! The instructions of one operand.

ghost use Rattle.std.specs.Prelude.{◌≡◌, ℕ, ◌<◌, Some, None};
ghost use Rattle.pdp11_machine.specs.State.{MachineState};
ghost use Rattle.pdp11_machine.specs.Single.{after_jump, after_clear, after_test, after_swap, after_sign_extend, after_change, after_single_operand};

use crate::Machine;
use pdp11_arithmetic::apply;
use pdp11_code::Ea;

impl Machine {
    fn jump(&mut self, target: &Ea) -> Option<()>
        requires { target.now.register < 8 }
        ensures { (self.new, result) ≡ after_jump target.now self.old }
    {
        let address = self.address(false, target.mode, target.register)?;
        self.set_register(7, address);
        Some(())
    }

    fn clear(&mut self, byte: bool, target: &Ea) -> Option<()>
        requires { target.now.register < 8 }
        ensures { (self.new, result) ≡ after_clear byte target.now self.old }
    {
        let place = self.place(byte, target.mode, target.register)?;
        self.store_by(byte, place, 0)?;
        self.set_flags(0, false, false);
        Some(())
    }

    fn test(&mut self, byte: bool, target: &Ea) -> Option<()>
        requires { target.now.register < 8 }
        ensures { (self.new, result) ≡ after_test byte target.now self.old }
    {
        let place = self.place(byte, target.mode, target.register)?;
        let value = self.load_by(byte, place)?;
        self.set_flags_by(byte, value, false, false);
        Some(())
    }

    fn swap_bytes(&mut self, target: &Ea) -> Option<()>
        requires { target.now.register < 8 }
        ensures { (self.new, result) ≡ after_swap target.now self.old }
    {
        let place = self.place(false, target.mode, target.register)?;
        let old = self.load(place)?;
        self.store(place, old / 256 + old % 256 * 256)?;
        self.set_flags_by(true, old / 256, false, false);
        Some(())
    }

    fn store_sign(&mut self, target: &Ea) -> Option<()>
        requires { target.now.register < 8 }
        ensures { (self.new, result) ≡ after_sign_extend target.now self.old }
    {
        let place = self.place(false, target.mode, target.register)?;
        let word = if self.negative { 0o177777 } else { 0 };
        self.store(place, word)?;
        self.zero = !self.negative;
        self.overflow = false;
        Some(())
    }

    fn change(&mut self, op: u8, byte: bool, target: &Ea) -> Option<()>
        requires { target.now.register < 8 }
        ensures { (self.new, result) ≡ after_change op byte target.now self.old }
    {
        let place = self.place(byte, target.mode, target.register)?;
        let old = self.load_by(byte, place)?;
        let made = apply(op, byte, self.carry, old);
        self.store_by(byte, place, made.value)?;
        self.set_flags_by(byte, made.value, made.overflow, made.carry);
        Some(())
    }

    pub(crate) fn one(&mut self, op: u8, high: bool, target: &Ea) -> Option<()>
        requires { target.now.register < 8 }
        ensures { (self.new, result) ≡ after_single_operand op high target.now self.old }
    {
        match op {
            0o01 => self.jump(target),
            0o03 => self.swap_bytes(target),
            0o50 => self.clear(high, target),
            0o57 => self.test(high, target),
            0o67 => self.store_sign(target),
            _ => self.change(op, high, target),
        }
    }
}
