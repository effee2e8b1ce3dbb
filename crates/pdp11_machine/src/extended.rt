//! The instructions of a register and an operand.

ghost use Rattle.std.specs.Prelude.{◌≡◌, ℕ, ◌+◌, ◌*◌, ◌/◌, ◌%◌, ◌<◌, ◌≤◌, Some, None};
ghost use Rattle.pdp11_machine.specs.State.{MachineState};
ghost use Rattle.pdp11_machine.specs.Extended.{pair_of, with_product, after_multiply, after_divide, after_left_shift, after_right_shift, after_shift, after_arithmetic, after_exclusive_or, after_operand_arithmetic, after_register_operand, undivided_flags};

use crate::Machine;
use pdp11_arithmetic::{
    changes_sign, division_of, product_leaves_range, product_of, wide_left_of, wide_right_of,
};
use pdp11_code::Ea;

impl Machine {
    fn store_product(&mut self, register: u8, product: u32)
        requires { register < 8 }
        ensures { self.new ≡ with_product register product self.old }
    {
        if register % 2 == 0 {
            self.set_register(register, (product / 65536) as u16);
            self.set_register(second_of(register), (product % 65536) as u16);
        } else {
            self.set_register(register, (product % 65536) as u16);
        }
    }

    fn multiply(&mut self, register: u8, word: u16)
        requires { register < 8 }
        ensures { self.new ≡ after_multiply register word self.old }
    {
        let factor = self.register(register);
        let product = product_of(factor, word);
        self.store_product(register, product);
        self.negative = product >= 2147483648;
        self.zero = product == 0;
        self.overflow = false;
        self.carry = product_leaves_range(factor, word);
    }

    fn leave_undivided(&mut self, by_zero: bool)
        ensures { self.new ≡ record self.old { flags = undivided_flags by_zero } }
    {
        self.negative = false;
        self.zero = false;
        self.overflow = true;
        self.carry = by_zero;
    }

    fn divide(&mut self, register: u8, word: u16)
        requires { register < 8 }
        ensures { self.new ≡ after_divide register word self.old }
    {
        if word == 0 {
            self.leave_undivided(true);
            return;
        }
        let high = self.register(register);
        let low = self.register(second_of(register));
        match division_of(high, low, word) {
            None => self.leave_undivided(false),
            Some((quotient, remainder)) => {
                self.set_register(register, quotient);
                self.set_register(second_of(register), remainder);
                self.set_flags(quotient, false, false);
            }
        }
    }

    fn shift_left(&mut self, register: u8, count: u16)
        requires registered { register < 8 }
        requires few { count < 32 }
        ensures { self.new ≡ after_left_shift register count self.old }
    {
        let word = self.register(register);
        let wide = wide_left_of(word, count);
        let shifted = (wide % 65536) as u16;
        self.set_register(register, shifted);
        self.set_flags(shifted, changes_sign(word, count), wide / 65536 % 2 == 1);
    }

    fn shift_right(&mut self, register: u8, count: u16)
        requires registered { register < 8 }
        requires some { 0 < count }
        requires few { count ≤ 32 }
        ensures { self.new ≡ after_right_shift register count self.old }
    {
        let wide = wide_right_of(self.register(register));
        let shifted = ((wide >> count) % 65536) as u16;
        self.set_register(register, shifted);
        self.set_flags(shifted, false, (wide >> (count - 1)) % 2 == 1);
    }

    fn shift(&mut self, register: u8, word: u16)
        requires { register < 8 }
        ensures { self.new ≡ after_shift register word self.old }
    {
        let count = word % 64;
        if count < 32 {
            self.shift_left(register, count);
        } else {
            self.shift_right(register, 64 - count);
        }
    }

    #[tactic(auto, unfolding(crate::specs::Extended::after_arithmetic))]
    fn compute(&mut self, op: u8, register: u8, word: u16)
        requires { register < 8 }
        ensures { self.new ≡ after_arithmetic op register word self.old }
    {
        match op {
            0 => self.multiply(register, word),
            1 => self.divide(register, word),
            _ => self.shift(register, word),
        }
    }

    fn exclusive_or(&mut self, register: u8, target: &Ea) -> Option<()>
        requires { (register < 8) × (target.now.register < 8) }
        ensures { (self.new, result) ≡ after_exclusive_or register target.now self.old }
    {
        let word = self.register(register);
        let place = self.place(false, target.mode, target.register)?;
        let old = self.load(place)?;
        self.store_logic(false, place, old ^ word)
    }

    fn compute_operand(&mut self, op: u8, register: u8, source: &Ea) -> Option<()>
        requires { (register < 8) × (source.now.register < 8) }
        ensures { (self.new, result) ≡ after_operand_arithmetic op register source.now self.old }
    {
        let place = self.place(false, source.mode, source.register)?;
        let word = self.load(place)?;
        self.compute(op, register, word);
        Some(())
    }

    pub(crate) fn extended(&mut self, op: u8, register: u8, operand: &Ea) -> Option<()>
        requires { (register < 8) × (operand.now.register < 8) }
        ensures { (self.new, result) ≡ after_register_operand op register operand.now self.old }
    {
        if op == 4 {
            self.exclusive_or(register, operand)
        } else {
            self.compute_operand(op, register, operand)
        }
    }
}

fn second_of(register: u8) -> u8
    requires { register < 8 }
    ensures value { result ≡ pair_of register }
    ensures small { result < 8 }
{
    register / 2 * 2 + 1
}
