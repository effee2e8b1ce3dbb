//! The requests that a monitor is asked, and its replies.
ghost use Rattle.std.specs.Prelude.{◌≡◌, ◌<◌, ◌≤◌, [], ◌∷◌, ◌++◌, length};

use crate::gates::GoEnd;
use std::marker::Model;

/// The most words that one request or reply carries.
pub const MAX_WORDS: usize = 500;

/// The most bytes that one request or reply carries.
pub const MAX_PIECE_BYTES: usize = 1_000;

/// The most gates that one Go passes.
pub const MAX_GATES: u16 = 4_096;

/// At most 500 words. Clauses see their list.
#[derive(Drop)]
pub struct Words {
    count: u16,
    room: [u16; MAX_WORDS],
}

impl Model for Words {
    ghost use Rattle.std.specs.Prelude.{◌≡◌, ◌≤◌, ℕ, List, take, length};
    ghost use Rattle.target_monitor.specs.declared.requests.TheConstants.{MAX_WORDS};

    ghost Value = { List ℕ };

    ghost view = { λ w. take w.count w.room };

    ghost invariant = { λ w. (w.count ≤ MAX_WORDS) × (length w.room ≡ MAX_WORDS) };
}

impl Words {
    /// No words.
    pub fn new() -> Words
        ensures { result ≡ [] }
    {
        Words {
            count: 0,
            room: [0; MAX_WORDS],
        }
    }

    /// Adds a word at the end.
    pub fn push(&mut self, word: u16)
        requires { length self.old < MAX_WORDS }
        ensures { self.new ≡ self.old ++ word ∷ [] }
    {
        self.room[self.count as usize] = word;
        self.count += 1;
    }

    /// The words, in order.
    pub fn as_slice(&self) -> &[u16]
        ensures words { result.now ≡ self.now }
        ensures few { length self.now ≤ MAX_WORDS }
    {
        &self.room[..self.count as usize]
    }
}

/// At most 1,000 bytes. Clauses see their list.
#[derive(Drop)]
pub struct Piece {
    pub(crate) count: u16,
    pub(crate) room: [u8; MAX_PIECE_BYTES],
}

impl Model for Piece {
    ghost use Rattle.std.specs.Prelude.{◌≡◌, ◌≤◌, ℕ, List, take, length};
    ghost use Rattle.target_monitor.specs.declared.requests.TheConstants.{MAX_PIECE_BYTES};

    ghost Value = { List ℕ };

    ghost view = { λ p. take p.count p.room };

    ghost invariant = { λ p. (p.count ≤ MAX_PIECE_BYTES) × (length p.room ≡ MAX_PIECE_BYTES) };
}

impl Piece {
    /// No bytes.
    pub fn new() -> Piece
        ensures { result ≡ [] }
    {
        Piece {
            count: 0,
            room: [0; MAX_PIECE_BYTES],
        }
    }

    /// Adds a byte at the end.
    pub fn push(&mut self, byte: u8)
        requires { length self.old < MAX_PIECE_BYTES }
        ensures { self.new ≡ self.old ++ byte ∷ [] }
    {
        self.room[self.count as usize] = byte;
        self.count += 1;
    }

    /// The bytes, in order.
    pub fn as_slice(&self) -> &[u8]
        ensures bytes { result.now ≡ self.now }
        ensures few { length self.now ≤ MAX_PIECE_BYTES }
    {
        &self.room[..self.count as usize]
    }
}

/// What a monitor is asked. Places are byte addresses.
#[derive(Drop)]
pub enum Request {
    /// Makes the target as at the start of a program.
    Reset,
    /// Writes 1 to 500 words from this place on.
    Poke(u16, Words),
    /// Reads so many words, 1 to 500, from this place on.
    Peek(u16, u16),
    /// Reads the registers and the status word.
    Registers,
    /// Sets a break at the gate at this place, or takes it away.
    Gate(u16, bool),
    /// Runs over so many gates at most, 1 to 4,096.
    Go(u16),
    /// Takes the first bytes out of the output.
    Drain,
    /// Adds a piece of 1 to 1,000 bytes to the input. The number says how many bytes of the text are still to come,
    /// those of the piece included.
    Feed(u16, Piece),
}

/// What a monitor replies.
#[derive(Drop)]
pub enum Reply {
    /// It was done.
    Done,
    /// The words that were asked for.
    Words(Words),
    /// How the run ended, and the number of gates that it passed.
    Went(GoEnd, u16),
    /// The bytes that were taken out of the output.
    Bytes(Piece),
    /// It was refused, and nothing was changed.
    Bad,
}
