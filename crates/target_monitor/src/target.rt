//! The target: the machine and its console behind their monitor.
ghost use Rattle.std.specs.Prelude.{◌≡◌, ◌≤◌, IfOk};
ghost use Rattle.target_monitor.specs.declared.requests.TheConstants.{MAX_WORDS};
ghost use Rattle.target_monitor.specs.declared.requests.Request.TheVariants as request;
ghost use Rattle.target_monitor.specs.Go.{go_result};
ghost use Rattle.target_monitor.specs.Served.{HasForm, fresh_target, status_after, served};

use crate::gates::{GoEnd, go};
use crate::requests::{Piece, Reply, Request, Words};
use crate::transfer::{drain_into, is_gate, read_registers, read_words, write_words};
use console_service::{
    BPT, CODE_BYTE, CONSOLE_ROOM_BYTES, Console, GLOBALS_BYTE, MEMORY_END_BYTE, NOP,
};
use dice_base::NoMemory;
use pdp11_machine::Machine;
use std::alloc::Global;
use std::marker::Model;

/// How many bytes of the output are free at each gate that a Go passes.
pub const GATE_ROOM_BYTES: u32 = 32_768;

/// How far the program has come.
#[derive(Clone, Copy)]
pub enum ProgramStatus {
    /// It has neither ended nor is it in an error.
    Unfinished,
    /// It has ended.
    Ended,
    /// It is in the run-time error of this number.
    Failed(u16),
}

/// The target: a machine with its console, and the monitor that carries out requests on them. It counts the Resets and
/// the Gos that it carried out, up to 2^64 - 1.
#[derive(Drop)]
pub struct Target {
    machine: Machine,
    console: Console,
    status: ProgramStatus,
    resets: u64,
    goes: u64,
}

impl Model for Target {
    ghost use Rattle.target_monitor.specs.Served.{TargetState};

    ghost Value = { TargetState };

    ghost view = { λ t. record { machine = t.machine; console = t.console; status = t.status; resets = t.resets; goes = t.goes } };
}

impl Target {
    /// A target that was asked nothing yet: memory, registers and status word are zero, and the console is empty. All
    /// memory that it needs is taken here.
    pub fn new(alloc: Global) -> Result<Target, NoMemory>
        ensures { IfOk result (λ target. target ≡ fresh_target) }
    {
        let machine = Machine::new(alloc)?;
        let console = Console::new(alloc)?;
        Ok(Target {
            machine,
            console,
            status: ProgramStatus::Unfinished,
            resets: 0,
            goes: 0,
        })
    }

    /// Carries out a request and writes the reply. Takes no memory.
    pub fn answer(&mut self, request: &Request, reply: &mut Reply)
        requires { HasForm request.now }
        ensures { (self.new, reply.new) ≡ served request.now self.old }
    {
        match request {
            Request::Reset => self.reset(reply),
            Request::Poke(place, words) => self.poke(*place, words, reply),
            Request::Peek(place, count) => self.peek(*place, *count, reply),
            Request::Registers => self.registers(reply),
            Request::Gate(place, breaks) => self.set_gate(*place, *breaks, reply),
            Request::Go(gates) => self.run(*gates, reply),
            Request::Drain => self.drain(reply),
            Request::Feed(total, piece) => self.feed(*total, piece, reply),
        }
    }

    fn reset(&mut self, reply: &mut Reply)
        ensures { (self.new, reply.new) ≡ served request.Reset self.old }
    {
        self.machine.reset();
        self.machine.set_register(6, MEMORY_END_BYTE);
        self.machine.set_register(7, CODE_BYTE);
        self.console.reset();
        self.status = ProgramStatus::Unfinished;
        self.resets = self.resets.saturating_add(1);
        *reply = Reply::Done;
    }

    fn poke(&mut self, place: u16, words: &Words, reply: &mut Reply)
        ensures { (self.new, reply.new) ≡ served (request.Poke place words.now) self.old }
    {
        let words = words.as_slice();
        let end = place as usize + 2 * words.len();
        if place % 2 == 0 && place >= CODE_BYTE && end <= GLOBALS_BYTE as usize {
            write_words(&mut self.machine, place, words);
            *reply = Reply::Done;
        } else {
            *reply = Reply::Bad;
        }
    }

    fn peek(&self, place: u16, count: u16, reply: &mut Reply)
        requires { count ≤ MAX_WORDS }
        ensures { (self.now, reply.new) ≡ served (request.Peek place count) self.now }
    {
        let end = place as u32 + 2 * count as u32;
        if place % 2 == 0 && end <= MEMORY_END_BYTE as u32 {
            *reply = Reply::Words(Words::new());
            if let Reply::Words(words) = reply {
                read_words(&self.machine, place, count, words);
            }
        } else {
            *reply = Reply::Bad;
        }
    }

    fn registers(&self, reply: &mut Reply)
        ensures { (self.now, reply.new) ≡ served request.Registers self.now }
    {
        *reply = Reply::Words(Words::new());
        if let Reply::Words(words) = reply {
            read_registers(&self.machine, words);
        }
    }

    fn set_gate(&mut self, place: u16, breaks: bool, reply: &mut Reply)
        ensures { (self.new, reply.new) ≡ served (request.Gate place breaks) self.old }
    {
        let is_code = place % 2 == 0 && place >= CODE_BYTE && place < GLOBALS_BYTE;
        if is_code && is_gate(self.machine.peek(place)) {
            self.machine.poke(place, if breaks { BPT } else { NOP });
            *reply = Reply::Done;
        } else {
            *reply = Reply::Bad;
        }
    }

    fn run(&mut self, gates: u16, reply: &mut Reply)
        requires some { 1 ≤ gates }
        ensures { (self.new, reply.new) ≡ served (request.Go gates) self.old }
    {
        match self.status {
            ProgramStatus::Unfinished => {
                let went = go(
                    &mut self.machine,
                    &mut self.console,
                    gates as u32,
                    Some(GATE_ROOM_BYTES),
                );
                self.status = status_after(went.end);
                self.goes = self.goes.saturating_add(1);
                *reply = Reply::Went(went.end, went.passed as u16);
            }
            ProgramStatus::Ended | ProgramStatus::Failed(_) => *reply = Reply::Bad,
        }
    }

    fn drain(&mut self, reply: &mut Reply)
        ensures { (self.new, reply.new) ≡ served request.Drain self.old }
    {
        *reply = Reply::Bytes(Piece::new());
        if let Reply::Bytes(piece) = reply {
            drain_into(&mut self.console, piece);
        }
    }

    fn feed(&mut self, total: u16, piece: &Piece, reply: &mut Reply)
        ensures { (self.new, reply.new) ≡ served (request.Feed total piece.now) self.old }
    {
        let bytes = piece.as_slice();
        let is_right = bytes.len() <= total as usize
            && total as u32 <= CONSOLE_ROOM_BYTES - self.console.unread();
        *reply = if is_right && self.console.feed(bytes) {
            Reply::Done
        } else {
            Reply::Bad
        };
    }
}

// How far a program has come whose run ended so.
fn status_after(end: GoEnd) -> ProgramStatus
    ensures { result ≡ status_after end }
{
    match end {
        GoEnd::Ended => ProgramStatus::Ended,
        GoEnd::Error(number) => ProgramStatus::Failed(number),
        GoEnd::Counted
        | GoEnd::AtBreak
        | GoEnd::MustDrain
        | GoEnd::Overrun
        | GoEnd::Bus
        | GoEnd::ConsoleFull => ProgramStatus::Unfinished,
    }
}
