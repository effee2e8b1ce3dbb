//! The instructions of two operands.

ghost use Rattle.std.specs.Prelude.{◌≡◌, ℕ, ◌+◌, ◌-◌, ◌%◌, ◌<◌, Some, None};
ghost use Rattle.pdp11_machine.specs.State.{MachineState};
ghost use Rattle.pdp11_arithmetic.specs.Words.{whole};
ghost use Rattle.pdp11_machine.specs.Operands.{IsRegistered, operand_place, word_in, after_store};
ghost use Rattle.pdp11_machine.specs.Double.{sign_extension, after_move_store, after_move, after_compare, after_bit_test, after_logic_store, after_bit_clear, after_bit_set, after_add, after_subtract, after_operation, is_byte, after_double_operand};

use crate::{Machine, Place};
use pdp11_arithmetic::{difference_leaves_range, difference_of, sum_leaves_range};
use pdp11_code::Ea;

impl Machine {
    fn store_moved(&mut self, byte: bool, target: Place, value: u16) -> Option<()>
        requires registered { IsRegistered target }
        requires small { value < whole byte }
        ensures { (self.new, result) ≡ after_move_store byte self.old target value }
    {
        match target {
            Place::Register(register) if byte => {
                self.set_register(register, extended_byte(value));
                Some(())
            }
            _ => self.store_by(byte, target, value),
        }
    }

    fn move_value(&mut self, byte: bool, value: u16, target: Place) -> Option<()>
        requires registered { IsRegistered target }
        requires small { value < whole byte }
        ensures { (self.new, result) ≡ after_move byte self.old value target }
    {
        let carry = self.carry;
        self.store_moved(byte, target, value)?;
        self.set_flags_by(byte, value, false, carry);
        Some(())
    }

    fn compare(&mut self, byte: bool, value: u16, target: Place) -> Option<()>
        requires { IsRegistered target }
        ensures { (self.new, result) ≡ after_compare byte self.old value target }
    {
        let old = self.load_by(byte, target)?;
        let overflow = difference_leaves_range(byte, value, old);
        self.set_flags_by(byte, difference_of(byte, value, old), overflow, value < old);
        Some(())
    }

    fn test_bits(&mut self, byte: bool, value: u16, target: Place) -> Option<()>
        requires { IsRegistered target }
        ensures { (self.new, result) ≡ after_bit_test byte self.old value target }
    {
        let old = self.load_by(byte, target)?;
        self.set_flags_by(byte, value & old, false, self.carry);
        Some(())
    }

    pub(crate) fn store_logic(&mut self, byte: bool, target: Place, value: u16) -> Option<()>
        requires { IsRegistered target }
        ensures { (self.new, result) ≡ after_logic_store byte self.old target value }
    {
        let carry = self.carry;
        self.store_by(byte, target, value)?;
        self.set_flags_by(byte, value, false, carry);
        Some(())
    }

    fn clear_bits(&mut self, byte: bool, value: u16, target: Place) -> Option<()>
        requires { IsRegistered target }
        ensures { (self.new, result) ≡ after_bit_clear byte self.old value target }
    {
        let old = self.load_by(byte, target)?;
        self.store_logic(byte, target, old & (65535 - value))
    }

    fn set_bits(&mut self, byte: bool, value: u16, target: Place) -> Option<()>
        requires { IsRegistered target }
        ensures { (self.new, result) ≡ after_bit_set byte self.old value target }
    {
        let old = self.load_by(byte, target)?;
        self.store_logic(byte, target, old | value)
    }

    fn add(&mut self, word: u16, target: Place) -> Option<()>
        requires { IsRegistered target }
        ensures { (self.new, result) ≡ after_add self.old word target }
    {
        let old = self.load(target)?;
        let sum = old.wrapping_add(word);
        self.store(target, sum)?;
        self.set_flags(sum, sum_leaves_range(old, word), 65535 - old < word);
        Some(())
    }

    fn subtract(&mut self, word: u16, target: Place) -> Option<()>
        requires { IsRegistered target }
        ensures { (self.new, result) ≡ after_subtract self.old word target }
    {
        let old = self.load(target)?;
        let left = difference_of(false, old, word);
        self.store(target, left)?;
        self.set_flags(left, difference_leaves_range(false, old, word), old < word);
        Some(())
    }

    fn combine(&mut self, op: u8, high: bool, value: u16, target: Place) -> Option<()>
        requires registered { IsRegistered target }
        requires small { value < whole (is_byte op high) }
        ensures { (self.new, result) ≡ after_operation op high self.old value target }
    {
        match op {
            1 => self.move_value(high, value, target),
            2 => self.compare(high, value, target),
            3 => self.test_bits(high, value, target),
            4 => self.clear_bits(high, value, target),
            5 => self.set_bits(high, value, target),
            _ => if high {
                self.subtract(value, target)
            } else {
                self.add(value, target)
            },
        }
    }

    pub(crate) fn two(&mut self, op: u8, high: bool, source: &Ea, target: &Ea) -> Option<()>
        requires { (source.now.register < 8) × (target.now.register < 8) }
        ensures { (self.new, result) ≡ after_double_operand op high source.now target.now self.old }
    {
        let byte = has_bytes(op, high);
        let from = self.place(byte, source.mode, source.register)?;
        let value = self.load_by(byte, from)?;
        let to = self.place(byte, target.mode, target.register)?;
        self.combine(op, high, value, to)
    }
}

fn extended_byte(byte: u16) -> u16
    requires { byte < 256 }
    ensures { result ≡ sign_extension byte }
{
    if byte >= 0o200 { 0o177400 + byte } else { byte }
}

fn has_bytes(op: u8, high: bool) -> bool
    ensures { result ≡ is_byte op high }
{
    high && op != 6
}
