//! Where operands stand, and what stands there.

ghost use Rattle.std.specs.Prelude.{◌≡◌, ℕ, ◌+◌, ◌-◌, ◌*◌, ◌/◌, ◌%◌, ◌<◌, ◌≤◌, List, length, Some, None, if◌then◌else◌, IfSome};
ghost use Rattle.pdp11_machine.specs.State.{MachineState, reg, with_reg, is_place, word_at, with_word};
ghost use Rattle.pdp11_machine.specs.Operands.{after_fetch, step_of, after_increment, after_decrement, after_index, deferred_address, operand_address, operand_place, IsRegistered, word_in, after_store, byte_at, with_byte, byte_in, after_byte_store, value_in, after_value_store};
ghost use Rattle.pdp11_arithmetic.specs.Words.{whole};

use crate::{MEMORY_BYTES, Machine, Place};

impl Machine {
    pub(crate) fn read(&self, address: u16) -> Option<u16>
        ensures { result ≡ word_at self.now address }
    {
        if address % 2 == 0 && address < MEMORY_BYTES {
            Some(self.memory[(address / 2) as usize])
        } else {
            None
        }
    }

    pub(crate) fn write(&mut self, address: u16, word: u16) -> Option<()>
        ensures { (self.new, result) ≡ after_store self.old (Place.Cell address) word }
    {
        if address % 2 == 0 && address < MEMORY_BYTES {
            self.memory[(address / 2) as usize] = word;
            Some(())
        } else {
            None
        }
    }

    pub(crate) fn fetch(&mut self) -> Option<u16>
        ensures { (self.new, result) ≡ after_fetch self.old }
    {
        let place = self.register(7);
        let word = self.read(place)?;
        self.set_register(7, place.wrapping_add(2));
        Some(word)
    }

    fn increment(&mut self, bytes: bool, register: u8) -> Option<u16>
        requires { register < 8 }
        ensures { (self.new, result) ≡ after_increment bytes register self.old }
    {
        let address = self.register(register);
        if register == 7 {
            self.fetch()?;
        } else {
            self.set_register(register, address.wrapping_add(step(bytes, register)));
        }
        Some(address)
    }

    fn decrement(&mut self, bytes: bool, register: u8) -> Option<u16>
        requires { register < 8 }
        ensures { (self.new, result) ≡ after_decrement bytes register self.old }
    {
        let address = self.register(register).wrapping_sub(step(bytes, register));
        self.set_register(register, address);
        Some(address)
    }

    fn index(&mut self, register: u8) -> Option<u16>
        requires { register < 8 }
        ensures { (self.new, result) ≡ after_index register self.old }
    {
        let offset = self.fetch()?;
        Some(self.register(register).wrapping_add(offset))
    }

    fn through(&self, deferred: bool, address: u16) -> Option<u16>
        ensures { result ≡ deferred_address deferred self.now address }
    {
        if deferred {
            self.read(address)
        } else {
            Some(address)
        }
    }

    pub(crate) fn address(&mut self, byte: bool, mode: u8, register: u8) -> Option<u16>
        requires { register < 8 }
        ensures { (self.new, result) ≡ operand_address byte mode register self.old }
    {
        if mode == 1 {
            Some(self.register(register))
        } else if mode <= 3 {
            let first = self.increment(byte && mode == 2, register)?;
            self.through(mode == 3, first)
        } else if mode <= 5 {
            let first = self.decrement(byte && mode == 4, register)?;
            self.through(mode == 5, first)
        } else {
            let first = self.index(register)?;
            self.through(mode == 7, first)
        }
    }

    pub(crate) fn place(&mut self, byte: bool, mode: u8, register: u8) -> Option<Place>
        requires { register < 8 }
        ensures place { (self.new, result) ≡ operand_place byte mode register self.old }
        ensures registered { IfSome result IsRegistered }
    {
        if mode == 0 {
            Some(Place::Register(register))
        } else {
            let address = self.address(byte, mode, register)?;
            Some(Place::Cell(address))
        }
    }

    pub(crate) fn load(&self, place: Place) -> Option<u16>
        requires { IsRegistered place }
        ensures { result ≡ word_in self.now place }
    {
        match place {
            Place::Register(register) => Some(self.register(register)),
            Place::Cell(address) => self.read(address),
        }
    }

    pub(crate) fn store(&mut self, place: Place, word: u16) -> Option<()>
        requires { IsRegistered place }
        ensures { (self.new, result) ≡ after_store self.old place word }
    {
        match place {
            Place::Register(register) => {
                self.set_register(register, word);
                Some(())
            }
            Place::Cell(address) => self.write(address, word),
        }
    }
}

impl Machine {
    fn read_byte(&self, address: u16) -> Option<u16>
        ensures value { result ≡ byte_at self.now address }
        ensures small { IfSome result (λ byte. byte < 256) }
    {
        if address < MEMORY_BYTES {
            let word = self.memory[(address / 2) as usize];
            Some(if address % 2 == 0 {
                word % 256
            } else {
                word / 256
            })
        } else {
            None
        }
    }

    fn load_byte(&self, place: Place) -> Option<u16>
        requires { IsRegistered place }
        ensures value { result ≡ byte_in self.now place }
        ensures small { IfSome result (λ byte. byte < 256) }
    {
        match place {
            Place::Register(register) => Some(self.register(register) % 256),
            Place::Cell(address) => self.read_byte(address),
        }
    }

    fn store_byte(&mut self, place: Place, byte: u16) -> Option<()>
        requires { IsRegistered place }
        ensures { (self.new, result) ≡ after_byte_store self.old place byte }
    {
        match place {
            Place::Register(register) => {
                let word = self.register(register) / 256 * 256 + byte % 256;
                self.set_register(register, word);
                Some(())
            }
            Place::Cell(address) => {
                if address < MEMORY_BYTES {
                    let word = self.memory[(address / 2) as usize];
                    self.memory[(address / 2) as usize] = merged(address, word, byte);
                    Some(())
                } else {
                    None
                }
            }
        }
    }

    pub(crate) fn load_by(&self, byte: bool, place: Place) -> Option<u16>
        requires { IsRegistered place }
        ensures value { result ≡ value_in byte self.now place }
        ensures small { IfSome result (λ value. value < whole byte) }
    {
        if byte {
            self.load_byte(place)
        } else {
            self.load(place)
        }
    }

    pub(crate) fn store_by(&mut self, byte: bool, place: Place, value: u16) -> Option<()>
        requires { IsRegistered place }
        ensures { (self.new, result) ≡ after_value_store byte self.old place value }
    {
        if byte {
            self.store_byte(place, value)
        } else {
            self.store(place, value)
        }
    }
}

// A word of which the byte of this address is replaced.
fn merged(address: u16, word: u16, byte: u16) -> u16
    ensures { result ≡ with_byte address word byte }
{
    if address % 2 == 0 {
        word / 256 * 256 + byte % 256
    } else {
        byte % 256 * 256 + word % 256
    }
}

// How far a register steps.
fn step(bytes: bool, register: u8) -> u16
    ensures { result ≡ step_of bytes register }
{
    if bytes && register < 6 { 1 } else { 2 }
}
