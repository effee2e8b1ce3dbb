//! Branches, condition codes, subroutines and returns from traps.

ghost use Rattle.std.specs.Prelude.{◌≡◌, ℕ, ◌+◌, ◌*◌, ◌%◌, ◌<◌, if◌then◌else◌, Some, None};
ghost use Rattle.pdp11_machine.specs.State.{MachineState};
ghost use Rattle.pdp11_machine.specs.Control.{is_taken, after_branch, with_codes, after_push, after_pop, after_call, after_return, after_resume, after_count_down};

use crate::Machine;
use pdp11_code::Ea;

impl Machine {
    fn takes_branch(&self, high: u8) -> bool
        ensures { result ≡ is_taken high self.now.flags }
    {
        let less = self.negative != self.overflow;
        match high {
            0o001 => true,
            0o002 => !self.zero,
            0o003 => self.zero,
            0o004 => !less,
            0o005 => less,
            0o006 => !(self.zero || less),
            0o007 => self.zero || less,
            0o200 => !self.negative,
            0o201 => self.negative,
            0o202 => !(self.carry || self.zero),
            0o203 => self.carry || self.zero,
            0o204 => !self.overflow,
            0o205 => self.overflow,
            0o206 => !self.carry,
            _ => self.carry,
        }
    }

    pub(crate) fn branch(&mut self, high: u8, low: u8)
        ensures { self.new ≡ (if is_taken high self.old.flags then after_branch low self.old else self.old) }
    {
        if self.takes_branch(high) {
            let back = if low >= 0o200 { 0o177000 } else { 0 };
            let place = self
                .register(7)
                .wrapping_add(2 * low as u16)
                .wrapping_add(back);
            self.set_register(7, place);
        }
    }

    pub(crate) fn set_codes(&mut self, set: bool, bits: u8)
        ensures { self.new ≡ record self.old { flags = with_codes set bits self.old.flags } }
    {
        if bits / 8 % 2 == 1 {
            self.negative = set;
        }
        if bits / 4 % 2 == 1 {
            self.zero = set;
        }
        if bits / 2 % 2 == 1 {
            self.overflow = set;
        }
        if bits % 2 == 1 {
            self.carry = set;
        }
    }
}

impl Machine {
    fn push(&mut self, register: u8) -> Option<()>
        requires { register < 8 }
        ensures { (self.new, result) ≡ after_push register self.old }
    {
        let place = self.register(6).wrapping_sub(2);
        self.set_register(6, place);
        self.write(place, self.register(register))
    }

    fn pop(&mut self) -> Option<u16>
        ensures { (self.new, result) ≡ after_pop self.old }
    {
        let place = self.register(6);
        self.set_register(6, place.wrapping_add(2));
        self.read(place)
    }

    pub(crate) fn call(&mut self, register: u8, target: &Ea) -> Option<()>
        requires { (register < 8) × (target.now.register < 8) }
        ensures { (self.new, result) ≡ after_call register target.now self.old }
    {
        let address = self.address(false, target.mode, target.register)?;
        self.push(register)?;
        self.set_register(register, self.register(7));
        self.set_register(7, address);
        Some(())
    }

    pub(crate) fn return_by(&mut self, register: u8) -> Option<()>
        requires { register < 8 }
        ensures { (self.new, result) ≡ after_return register self.old }
    {
        self.set_register(7, self.register(register));
        let word = self.pop()?;
        self.set_register(register, word);
        Some(())
    }

    pub(crate) fn resume(&mut self) -> Option<()>
        ensures { (self.new, result) ≡ after_resume self.old }
    {
        let place = self.pop()?;
        self.set_register(7, place);
        let status = self.pop()?;
        self.set_status(status);
        Some(())
    }

    pub(crate) fn count_down(&mut self, register: u8, back: u8)
        requires { (register < 8) × (back < 64) }
        ensures { self.new ≡ after_count_down register back self.old }
    {
        let left = self.register(register).wrapping_sub(1);
        self.set_register(register, left);
        if left != 0 {
            let place = self.register(7).wrapping_sub(2 * back as u16);
            self.set_register(7, place);
        }
    }
}
