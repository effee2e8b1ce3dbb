//! A trap that is taken.

ghost use Rattle.std.specs.Prelude.{◌≡◌, ℕ, ◌+◌, ◌<◌, ◌%◌, IsTrue, slice_index};
ghost use Rattle.pdp11_machine.specs.State.{MachineState, reg, is_place};
ghost use Rattle.pdp11_machine.specs.TakeTrap.{is_reachable, with_trap_pushed, with_vector, trap_result};

use crate::{MEMORY_BYTES, Machine};

impl Machine {
    pub(crate) fn go_to_vector(&mut self, vector: u16) -> bool
        ensures { (self.new, result) ≡ trap_result vector self.old }
    {
        if self.reaches(vector) {
            self.push_trap();
            self.load_vector(vector);
            true
        } else {
            false
        }
    }

    fn reaches(&self, vector: u16) -> bool
        ensures { result ≡ is_reachable vector self.now }
    {
        let top = self.register(6);
        is_word_address(vector)
            && is_word_address(vector + 2)
            && is_word_address(top.wrapping_sub(2))
            && is_word_address(top.wrapping_sub(4))
    }

    fn push_trap(&mut self)
        requires status { IsTrue (is_place ((reg self.old 6 + 65534) % 65536)) }
        requires place { IsTrue (is_place ((reg self.old 6 + 65532) % 65536)) }
        ensures { self.new ≡ with_trap_pushed self.old }
    {
        let top = self.register(6);
        self.poke(top.wrapping_sub(2), self.status());
        self.poke(top.wrapping_sub(4), self.register(7));
        self.set_register(6, top.wrapping_sub(4));
    }

    fn load_vector(&mut self, vector: u16)
        requires first { IsTrue (is_place vector) }
        requires second { IsTrue (is_place (vector + 2)) }
        ensures { self.new ≡ with_vector vector self.old }
    {
        let status = self.peek(vector + 2);
        self.set_register(7, self.peek(vector));
        self.set_status(status);
    }
}

fn is_word_address(address: u16) -> bool
    ensures { result ≡ is_place address }
{
    address % 2 == 0 && address < MEMORY_BYTES
}
