//! The console's texts, and Go over gates.
ghost use Rattle.std.specs.Prelude.{◌≤◌};

use console_service::{CODE_BYTE, Console, Served, services};
use pdp11_machine::Machine;
use std::alloc::Global;
use std::test::Fail;
use target_monitor::{GoEnd, Went, go};

// Whether the console writes this text for a word in a width.
fn writes(alloc: Global, word: u16, width: u16, text: &str) -> Result<bool, Fail> {
    let mut machine = Machine::new(alloc)?;
    let mut console = Console::new(alloc)?;
    machine.set_register(0, word);
    machine.set_register(1, width);
    let served = console.serve(services::WRITE_INTEGER, &mut machine);
    let mut piece = [0; 16];
    let moved = console.drain(&mut piece);
    Ok(served == Served::Done && moved <= 16 && &piece[..moved] == text.as_bytes())
}

#[test]
fn integers_are_written_in_their_width(rt: HostRuntime) -> Result<(), Fail> {
    let cases = [
        (5, 3, "  5"),
        (0, 1, "0"),
        (32767, 8, "   32767"),
        (65535, 8, "      -1"),
        (32768, 1, "-32768"),
        (12345, 3, "12345"),
    ];
    for (word, width, text) in cases {
        let is_written = writes(rt.alloc(), word, width, text)?;
        assert!(rt; is_written, "{word} in {width}");
    }
    Ok(())
}

// How Go ends with these words at the begin of the code area, and PC then, in words from there.
fn run(alloc: Global, words: [u16; 5], gates: u32) -> Result<(Went, u16), Fail>
    requires { 1 ≤ gates }
{
    let mut machine = Machine::new(alloc)?;
    machine.poke(CODE_BYTE, words[0]);
    machine.poke(CODE_BYTE + 2, words[1]);
    machine.poke(CODE_BYTE + 4, words[2]);
    machine.poke(CODE_BYTE + 6, words[3]);
    machine.poke(CODE_BYTE + 8, words[4]);
    machine.set_register(7, CODE_BYTE);
    let mut console = Console::new(alloc)?;
    let went = go(&mut machine, &mut console, gates, None);
    Ok((went, machine.register(7).wrapping_sub(CODE_BYTE) / 2))
}

#[test]
fn gates_are_counted(rt: HostRuntime) -> Result<(), Fail> {
    let lines = [0o240, 0o104010, 0o240, 0o240, 0o104000];
    let marked = [0o240, 0o3, 0o240, 0o3, 0o104000];
    let cases = [
        (lines, 1, GoEnd::Counted, 1, 2),
        (lines, 2, GoEnd::Counted, 2, 3),
        (lines, 5, GoEnd::Ended, 3, 5),
        (marked, 1, GoEnd::Counted, 1, 1),
        (marked, 2, GoEnd::AtBreak, 1, 1),
        ([0o104403, 0, 0, 0, 0], 1, GoEnd::Error(3), 0, 1),
        ([0o104417, 0, 0, 0, 0], 1, GoEnd::Bus, 0, 1),
        ([0o104004, 0, 0, 0, 0], 1, GoEnd::Error(11), 0, 1),
        ([0o240, 0, 0, 0, 0], 9, GoEnd::Bus, 1, 2),
        ([0o104010, 0o776, 0, 0, 0], 1, GoEnd::ConsoleFull, 0, 1),
    ];
    for (words, gates, end, passed, pc) in cases {
        assert!(rt; gates >= 1);
        let (went, at) = run(rt.alloc(), words, gates)?;
        let is_right = went.end == end && went.passed == passed && at == pc;
        assert!(rt; is_right, "{words:?} for {gates}");
    }
    Ok(())
}
