//! Words and bytes on their way between requests and the machine.
ghost use Rattle.std.specs.Prelude.{◌≡◌, ◌+◌, ◌*◌, ◌%◌, ◌≤◌, Some, [], take, drop, length};
ghost use Rattle.console_service.specs.declared.memory_map.TheConstants.{GLOBALS_BYTE, MEMORY_END_BYTE};
ghost use Rattle.console_service.specs.Run.{is_gate_word};
ghost use Rattle.target_monitor.specs.declared.requests.TheConstants.{MAX_WORDS, MAX_PIECE_BYTES};
ghost use Rattle.target_monitor.specs.Served.{with_words, words_at, register_words};

use crate::requests::{Piece, Words};
use console_service::{BPT, Console, NOP};
use pdp11_machine::{Machine, REGISTERS};

// Writes the words from an even place on.
#[tactic(auto, unfolding(crate::specs::Served::with_words))]
pub(crate) fn write_words(machine: &mut Machine, first: u16, words: &[u16])
    requires even { first % 2 ≡ 0 }
    requires inside { first + 2 * length words.now ≤ GLOBALS_BYTE }
    ensures { machine.new ≡ with_words machine.old first words.now }
{
    let mut place = first;
    for word in words {
        machine.poke(place, *word);
        place += 2;
    }
}

// Reads so many words from an even place on, into no words.
pub(crate) fn read_words(machine: &Machine, place: u16, count: u16, words: &mut Words)
    requires few { count ≤ MAX_WORDS }
    requires even { place % 2 ≡ 0 }
    requires inside { place + 2 * count ≤ MEMORY_END_BYTE }
    requires empty { words.old ≡ [] }
    ensures { words.new ≡ words_at machine.now place count }
{
    for read in 0..count {
        words.push(machine.peek(place + 2 * read));
    }
}

// Reads the registers and the status word, into no words.
pub(crate) fn read_registers(machine: &Machine, words: &mut Words)
    requires { words.old ≡ [] }
    ensures { words.new ≡ register_words machine.now }
{
    for number in 0..REGISTERS {
        words.push(machine.register(number as u8));
    }
    words.push(machine.status());
}

// Takes the first bytes out of the output, into a piece.
pub(crate) fn drain_into(console: &mut Console, piece: &mut Piece)
    ensures bytes { piece.new ≡ take MAX_PIECE_BYTES console.old.output }
    ensures rest { console.new ≡ record console.old { output = drop MAX_PIECE_BYTES console.old.output } }
{
    piece.count = console.drain(&mut piece.room) as u16;
}

// Whether this is the word of a gate.
pub(crate) fn is_gate(word: u16) -> bool
    ensures { result ≡ is_gate_word (Some word) }
{
    word == NOP || word == BPT
}
