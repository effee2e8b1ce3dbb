//! The console: the bytes that the program wrote, those that were fed to it, and the services that EMT instructions ask
//! for.
ghost use Rattle.std.specs.Prelude.{◌≡◌, ◌+◌, ◌≤◌, ◌∷◌, [], ◌++◌, length, take, drop, min, replicate, decimal, nat_le, if◌then◌else◌, IfOk, IsTrue};
ghost use Rattle.dice_base.specs.IntegerText.{integer_text};
ghost use Rattle.console_service.specs.Console.{ConsoleState, empty_console, input_room, is_service, sign_of, size_of, after_write, after_integer_write, service_result};

use crate::{CONSOLE_ROOM_BYTES, services};
use circular_buffer::HeapCircularBuffer;
use dice_base::NoMemory;
use itoa::Buffer;
use pdp11_machine::Machine;
use std::alloc::Global;
use std::marker::Model;

/// How a service ended.
#[derive(Clone, Copy, PartialEq, Eq)]
pub enum Served {
    /// It was done.
    Done,
    /// The program has ended.
    Finished,
    /// The program is in the run-time error of this number.
    Error(u8),
    /// The output is longer than its free room.
    Full,
    /// A word outside memory or at an odd place was to be read.
    BadPlace,
}

const SPACES: [u8; 255] = [b' '; 255];

/// The console: an output of at most 65,536 bytes that were not yet drained, and an input of at most 65,536 bytes that
/// were not yet read.
#[derive(Drop)]
pub struct Console {
    output: HeapCircularBuffer<u8>,
    input: HeapCircularBuffer<u8>,
}

impl Model for Console {
    ghost use Rattle.std.specs.Prelude.{◌≡◌, ◌≤◌, length};
    ghost use Rattle.console_service.specs.Console.{ConsoleState};
    ghost use Rattle.console_service.specs.declared.memory_map.TheConstants.{CONSOLE_ROOM_BYTES};

    ghost Value = { ConsoleState };

    ghost view = { λ c. record { output = c.output.items; input = c.input.items } };

    ghost invariant = { λ c. (c.output.capacity ≡ CONSOLE_ROOM_BYTES) × (c.input.capacity ≡ CONSOLE_ROOM_BYTES) };
}

impl Console {
    /// A console with nothing written and nothing fed. The room of both queues is made at once.
    pub fn new(alloc: Global) -> Result<Console, NoMemory>
        ensures { IfOk result (λ c. c ≡ empty_console) }
    {
        let output = HeapCircularBuffer::with_capacity(alloc, CONSOLE_ROOM_BYTES as usize)?;
        let input = HeapCircularBuffer::with_capacity(alloc, CONSOLE_ROOM_BYTES as usize)?;
        Ok(Console { output, input })
    }

    /// The number of bytes that may still be written.
    pub fn free(&self) -> u32
        ensures { result + length self.now.output ≡ CONSOLE_ROOM_BYTES }
    {
        (self.output.capacity() - self.output.len()) as u32
    }

    /// The number of bytes that were fed and not yet read.
    pub fn unread(&self) -> u32
        ensures bytes { result ≡ length self.now.input }
        ensures within { result ≤ CONSOLE_ROOM_BYTES }
    {
        self.input.len() as u32
    }

    /// Adds the bytes to the input. False, and nothing is changed, exactly where they do not fit. Takes no memory.
    pub fn feed(&mut self, bytes: &[u8]) -> bool
        ensures fits { result ≡ nat_le (length bytes.now) (input_room self.old) }
        ensures fed { self.new ≡ (if result
            then record self.old { input = self.old.input ++ bytes.now } else self.old) }
    {
        if bytes.len() > (CONSOLE_ROOM_BYTES - self.unread()) as usize {
            return false;
        }
        self.input.fill_from_slice(bytes);
        true
    }

    /// Moves the first bytes of the output to the front of the piece, as many as there are and fit, and gives
    /// their number. Takes no memory.
    pub fn drain(&mut self, into: &mut [u8]) -> usize
        ensures count { result ≡ min (length into.old) (length self.old.output) }
        ensures moved { into.new ≡ take result self.old.output ++ drop result into.old }
        ensures kept { self.new ≡ record self.old { output = drop result self.old.output } }
    {
        self.output.read_into(into)
    }

    /// Empties both queues.
    pub fn reset(&mut self)
        ensures { self.new ≡ empty_console }
    {
        self.output.clear();
        self.input.clear();
    }

    /// Does the service of this number, one of those that are built: 0 the program has ended, 4 writes the integer
    /// in R0 in the width in R1, which is 1 to 255 or else error 11, and 8 writes a line end. Where it answers
    /// `Error` or `Full`, the console and the machine stay as they were.
    pub fn serve(&mut self, number: u8, machine: &mut Machine) -> Served
        requires { IsTrue (is_service number) }
        ensures { (machine.new, self.new, result) ≡ service_result number machine.old self.old }
    {
        match number {
            services::PROGRAM_END => Served::Finished,
            services::WRITE_INTEGER => self.write_integer(machine),
            _ => self.write(machine, b"\n"),
        }
    }

    fn write_integer(&mut self, machine: &Machine) -> Served
        ensures { (machine.now, self.new, result) ≡ after_integer_write machine.now self.old }
    {
        let width = machine.register(1);
        if width >= 1 && width <= services::MAX_WIDTH {
            self.write_padded(machine, machine.register(0), width)
        } else {
            Served::Error(services::WIDTH_ERROR)
        }
    }

    fn write_padded(&mut self, machine: &Machine, word: u16, width: u16) -> Served
        requires { width ≤ 255 }
        ensures { (machine.now, self.new, result) ≡ after_write (integer_text word width) machine.now self.old }
    {
        let mut buffer = Buffer::new();
        let digits = buffer.format(size(word)).as_bytes();
        let sign = sign(word);
        let padding = spaces((width as usize).saturating_sub(sign.len() + digits.len()));
        if padding.len() + sign.len() + digits.len() > self.free() as usize {
            return Served::Full;
        }
        self.append(padding);
        self.append(sign);
        self.append(digits);
        Served::Done
    }

    #[tactic(auto, unfolding(crate::specs::Console::after_write))]
    fn write(&mut self, machine: &Machine, text: &[u8]) -> Served
        ensures { (machine.now, self.new, result) ≡ after_write text.now machine.now self.old }
    {
        if text.len() > self.free() as usize {
            return Served::Full;
        }
        self.append(text);
        Served::Done
    }

    fn append(&mut self, text: &[u8])
        requires { length self.old.output + length text.now ≤ CONSOLE_ROOM_BYTES }
        ensures { self.new ≡ record self.old { output = self.old.output ++ text.now } }
    {
        self.output.fill_from_slice(text);
    }
}

fn spaces(count: usize) -> &'static [u8]
    requires { count ≤ 255 }
    ensures { result.now ≡ replicate count 32 }
{
    &SPACES[..count]
}

// The sign of a word as a signed number.
fn sign(word: u16) -> &'static [u8]
    ensures { result.now ≡ sign_of word }
{
    if word < 32768 { b"" } else { b"-" }
}

// The size of a word as a signed number.
fn size(word: u16) -> u16
    ensures { result ≡ size_of word }
{
    if word < 32768 {
        word
    } else {
        (65536 - word as u32) as u16
    }
}
