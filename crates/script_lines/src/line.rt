//! The next line of a source.
ghost use Rattle.std.specs.Prelude.{◌≡◌, ◌≤◌, ◌++◌, ℕ, List, [], ◌∷◌, length, take, IfOk, OnOk, IsErr, IsErrOf, MatchOption, MatchResult};
ghost use Rattle.std.specs.Io.KnownBytes.{Keeps, Consumes, IsAtEnd};
ghost use Rattle.dice_base.specs.Causes.{HasCause, Rose};
ghost use Rattle.script_lines.specs.Front.{kept_bytes, strip, SameFront};
ghost use Rattle.script_lines.specs.Took.{Took, Broken};
ghost use Rattle.script_lines.specs.declared.line.LineFault.TheVariants.{NoMemory, SourceFailed};

use dice_base::{Failed, Source};
use std::alloc::AllocFailed;

const LINE_FEED: u8 = b'\n';

const CARRIAGE_RETURN: u8 = b'\r';

/// So many bytes of a line are kept at most: those of the longest text that is loaded, one more, which shows that a
/// line is longer, and a carriage return.
const KEPT_BYTES: usize = 65_538;

/// How a line ends.
#[derive(Clone, Copy, Debug, PartialEq, Eq)]
pub enum Got {
    /// By a line feed.
    Whole,
    /// By the end of the source.
    Last,
    /// By the last byte that there was room for: the source has another.
    TooFar,
}

/// Why a line could not be read.
#[derive(Clone, Copy, Debug, PartialEq, Eq)]
pub enum LineFault {
    /// The source failed in the middle of the line.
    SourceFailed,
    /// Memory was refused. No contract says when this comes.
    NoMemory,
}

impl From<Failed> for LineFault {
    ghost from_gives = { λ _ fault. fault ≡ SourceFailed };

    fn from(_: Failed) -> Self {
        LineFault::SourceFailed
    }
}

impl<T: Drop> From<AllocFailed<T>> for LineFault {
    ghost from_gives = { λ _ fault. fault ≡ NoMemory };

    fn from(_: AllocFailed<T>) -> Self {
        LineFault::NoMemory
    }
}

fn next_byte<S: Source>(source: &mut S) -> Result<Option<u8>, Failed>
    ensures bytes { MatchResult result
        (λ got. MatchOption got (Keeps (S.left source.old) (S.left source.new) × IsAtEnd (S.left source.new))
        (λ b. Consumes (S.left source.old) (S.left source.new) (b ∷ [])))
        (λ _. Keeps (S.left source.old) (S.left source.new)) }
    ensures cause { HasCause (S.faults source.old) (S.faults source.new) result }
{
    let mut byte = [0];
    let count = source.read(&mut byte)?;
    Ok(if count == 0 { None } else { Some(byte[0]) })
}

// Adds a byte where fewer are kept than may be.
fn keep(line: &mut Vec<u8>, byte: u8) -> Result<(), AllocFailed<u8>>
    requires { length line.old.items ≤ kept_bytes }
    ensures { OnOk result (line.new.items ≡ take kept_bytes (line.old.items ++ byte ∷ [])) }
{
    if line.len() < KEPT_BYTES {
        line.push(byte)?;
        Ok(())
    } else {
        Ok(())
    }
}

/// The next line of the source, without its line feed. Bytes are taken from the source one by one, no more than `room`
/// of them, and `room` falls by their number. No more than 65,538 bytes of the line are kept.
pub fn next_line<S: Source>(
    source: &mut S,
    line: &mut Vec<u8>,
    room: &mut u32,
) -> Result<Got, LineFault>
    ensures got { IfOk result (λ got. Took got (record {
      kept = line.new.items;
      room = room.old;
      room_then = room.new;
      left = S.left source.old;
      left_then = S.left source.new;
    })) }
    ensures part { IsErr result → Broken (record {
      kept = line.new.items;
      room = room.old;
      room_then = room.new;
      left = S.left source.old;
      left_then = S.left source.new;
    }) }
    ensures later { S.faults source.old ≤ S.faults source.new }
    ensures same { OnOk result (S.faults source.new ≡ S.faults source.old) }
    ensures cause { IsErrOf result LineFault.SourceFailed → Rose (S.faults source.old) (S.faults source.new) }
{
    line.clear();
    while let Some(byte) = next_byte(source)? {
        if *room == 0 {
            return Ok(Got::TooFar);
        }
        *room -= 1;
        if byte == LINE_FEED {
            return Ok(Got::Whole);
        }
        keep(line, byte)?;
    }
    Ok(Got::Last)
}

/// A line without the carriage return before its line feed, where there is one. What is kept of a line and what is kept
/// of it without its carriage return begin alike.
pub fn stripped(line: &[u8]) -> &[u8]
    ensures whole { result.now ≡ strip line.now }
    ensures front { (l : List ℕ) → line.now ≡ take kept_bytes l → SameFront (strip l) result.now }
{
    without_return(line)
}

fn without_return(line: &[u8]) -> &[u8]
    ensures { result.now ≡ strip line.now }
{
    match line {
        [front @ .., CARRIAGE_RETURN] => front,
        _ => line,
    }
}
