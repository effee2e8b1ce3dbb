//! The loop over the lines of a script.
ghost use Rattle.std.specs.Prelude.{◌≡◌, ◌≤◌, ◌<◌, ℕ, List, [], length, take, None, Some, OnOk, IsErrOf, bytes_eq};
ghost use Rattle.dice_base.specs.Causes.{Rose};
ghost use Rattle.dice_base.specs.Lines.{some_line};
ghost use Rattle.pdp11_machine.specs.State.{zero_machine};
ghost use Rattle.script_lines.specs.Front.{kept_bytes, SameFront};
ghost use Rattle.dice_session.specs.World.{World};
ghost use Rattle.dice_session.specs.SessionOf.{IsSessionOf};
ghost use Rattle.dice_program.specs.Entries.{Entry, Position, Inside, Behind, end_line, command_entries, command_position, line_entries, line_position, entries_from, position_after, open_entries};
ghost use Rattle.dice_program.specs.Kept.{kept_text, items_of, HasFront, HasText, IsReadAs};
ghost use Rattle.dice_program.specs.Turns.{Answers, AnswersAll, LeavesAt, Turns, Finals};
ghost use Rattle.dice_program.specs.Top.{Serves};
ghost use Rattle.dice_program.specs.declared.serve.Fault.TheVariants.{ReadFault, WriteFault, NoMemory as Refused};

use crate::limits::{MAX_BYTES, MAX_LINES};
use crate::text::with_line;
use dice_base::{Failed, NoMemory, Sink, Source, Text, write_all};
use dice_command::{parse_command, takes_text};
use dice_session::Session;
use pdp11_machine::Machine;
use script_lines::{Got, LineFault, next_line, stripped};
use std::alloc::Global;

/// The line that ends a text.
const END_LINE: &[u8] = b".";

/// The command line that takes a text. A line that does so is this one, with blanks around it.
const LOAD_LINE: &[u8] = b"load";

/// How a script that could be read and answered ends.
#[derive(Clone, Copy, Debug, PartialEq, Eq)]
pub enum Ending {
    /// It was read to its end, or to `quit`.
    Done,
    /// It has too many lines or bytes.
    TooMany,
}

/// Why a script was not answered whole.
#[derive(Clone, Copy, Debug, PartialEq, Eq)]
pub enum Fault {
    /// The source failed.
    ReadFault,
    /// The sink failed.
    WriteFault,
    /// Memory was refused. No contract says when this comes.
    NoMemory,
}

impl From<LineFault> for Fault {
    ghost use Rattle.dice_program.specs.Turns.{fault_of};

    ghost from_gives = { λ line fault. fault ≡ fault_of line };

    fn from(fault: LineFault) -> Self {
        match fault {
            LineFault::SourceFailed => Fault::ReadFault,
            LineFault::NoMemory => Fault::NoMemory,
        }
    }
}

impl From<NoMemory> for Fault {
    ghost from_gives = { λ _ fault. fault ≡ Refused };

    fn from(_: NoMemory) -> Self {
        Fault::NoMemory
    }
}

// What fails behind the reading is the sink.
impl From<Failed> for Fault {
    ghost from_gives = { λ _ fault. fault ≡ WriteFault };

    fn from(_: Failed) -> Self {
        Fault::WriteFault
    }
}

/// What became of a turn of the loop.
#[derive(Clone, Copy, Debug, PartialEq, Eq)]
enum Turn {
    /// A line was answered, and the next one is to be read.
    On,
    /// The line was `quit`.
    Quit,
    /// The script is at its end.
    Last,
    /// The script has more bytes than it may have.
    TooFar,
}

// Whether the line ends a text.
fn is_end(line: &[u8]) -> bool
    ensures { result ≡ bytes_eq line.now end_line }
{
    line == END_LINE
}

// Carries out the command of a line and its text, of which what is kept tells it, and writes the reply. Tells whether
// the script ends here.
fn answer<K: Sink>(
    alloc: Global,
    session: &mut Session,
    line: &[u8],
    text: &[u8],
    machine: &mut Machine,
    sink: &mut K,
) -> Result<bool, Fault>
    requires lives { (w : World) × IsSessionOf w session.old machine.old }
    ensures answers { (w : World) (e : Entry) → IsSessionOf w session.old machine.old
        → IsReadAs e line.now text.now
        → Answers result w e session.new machine.new (K.held sink.old) (K.held sink.new) }
    ensures later { K.faults sink.old ≤ K.faults sink.new }
    ensures same { OnOk result (K.faults sink.new ≡ K.faults sink.old) }
    ensures cause { IsErrOf result Fault.WriteFault → Rose (K.faults sink.old) (K.faults sink.new) }
    ensures not_read { IsErrOf result Fault.ReadFault → ⊥ }
{
    let command = parse_command(alloc, line, text)?;
    let quit = command.is_quit();
    let mut reply = Text::new(alloc);
    session.command(alloc, command, machine, &mut reply)?;
    write_all(sink, reply.bytes())?;
    Ok(quit)
}

// Acts on a line that is no line of a text.
fn answer_command<K: Sink>(
    alloc: Global,
    session: &mut Session,
    text: &mut Option<Vec<u8>>,
    line: &[u8],
    machine: &mut Machine,
    sink: &mut K,
) -> Result<bool, Fault>
    requires lives { (w : World) × IsSessionOf w session.old machine.old }
    requires closed { text.old ≡ None }
    ensures answers { (w : World) (l : List ℕ) → IsSessionOf w session.old machine.old
        → SameFront l line.now
        → AnswersAll result w (command_entries l) session.new machine.new
        (K.held sink.old) (K.held sink.new)
        × LeavesAt result (command_position l) (items_of text.new) }
    ensures later { K.faults sink.old ≤ K.faults sink.new }
    ensures same { OnOk result (K.faults sink.new ≡ K.faults sink.old) }
    ensures cause { IsErrOf result Fault.WriteFault → Rose (K.faults sink.old) (K.faults sink.new) }
    ensures not_read { IsErrOf result Fault.ReadFault → ⊥ }
{
    if takes_text(line) {
        *text = Some(Vec::new(alloc));
        return Ok(false);
    }
    answer(alloc, session, line, b"", machine, sink)
}

// Acts on a line of a text, of which a front is open.
fn answer_text<K: Sink>(
    alloc: Global,
    session: &mut Session,
    front: Vec<u8>,
    text: &mut Option<Vec<u8>>,
    line: &[u8],
    machine: &mut Machine,
    sink: &mut K,
) -> Result<bool, Fault>
    requires lives { (w : World) × IsSessionOf w session.old machine.old }
    requires short { length front.items ≤ kept_text }
    requires closed { text.old ≡ None }
    ensures answers { (w : World) (begin whole l : List ℕ) → IsSessionOf w session.old machine.old
        → SameFront l line.now → HasFront begin whole (Some front.items)
        → AnswersAll result w (line_entries (Inside begin whole) l) session.new machine.new
        (K.held sink.old) (K.held sink.new)
        × LeavesAt result (line_position (Inside begin whole) l) (items_of text.new) }
    ensures later { K.faults sink.old ≤ K.faults sink.new }
    ensures same { OnOk result (K.faults sink.new ≡ K.faults sink.old) }
    ensures cause { IsErrOf result Fault.WriteFault → Rose (K.faults sink.old) (K.faults sink.new) }
    ensures not_read { IsErrOf result Fault.ReadFault → ⊥ }
{
    if is_end(line) {
        return answer(alloc, session, LOAD_LINE, &front, machine, sink);
    }
    *text = Some(with_line(front, line)?);
    Ok(false)
}

// Acts on a line, of which no more than a front is kept: it is a command line, or belongs to the text that is open.
fn answer_line<K: Sink>(
    alloc: Global,
    session: &mut Session,
    text: &mut Option<Vec<u8>>,
    line: &[u8],
    machine: &mut Machine,
    sink: &mut K,
) -> Result<bool, Fault>
    requires lives { (w : World) × IsSessionOf w session.old machine.old }
    requires stands { (at : Position) × HasText at (items_of text.old) }
    ensures answers { (w : World) (at : Position) (l : List ℕ) → IsSessionOf w session.old machine.old
        → HasText at (items_of text.old) → ¬ (at ≡ Behind) → SameFront l line.now
        → AnswersAll result w (line_entries at l) session.new machine.new
        (K.held sink.old) (K.held sink.new)
        × LeavesAt result (line_position at l) (items_of text.new) }
    ensures later { K.faults sink.old ≤ K.faults sink.new }
    ensures same { OnOk result (K.faults sink.new ≡ K.faults sink.old) }
    ensures cause { IsErrOf result Fault.WriteFault → Rose (K.faults sink.old) (K.faults sink.new) }
    ensures not_read { IsErrOf result Fault.ReadFault → ⊥ }
{
    match text.take() {
        None => answer_command(alloc, session, text, line, machine, sink),
        Some(front) => answer_text(alloc, session, front, text, line, machine, sink),
    }
}

// Acts on a last line, where there is one.
fn answer_last<K: Sink>(
    alloc: Global,
    session: &mut Session,
    text: &mut Option<Vec<u8>>,
    line: &[u8],
    machine: &mut Machine,
    sink: &mut K,
) -> Result<(), Fault>
    requires lives { (w : World) × IsSessionOf w session.old machine.old }
    requires stands { (at : Position) × HasText at (items_of text.old) }
    ensures answers { (w : World) (at : Position) (l : List ℕ) → IsSessionOf w session.old machine.old
        → HasText at (items_of text.old) → ¬ (at ≡ Behind) → line.now ≡ take kept_bytes l
        → AnswersAll result w (entries_from at (some_line l)) session.new machine.new
        (K.held sink.old) (K.held sink.new)
        × OnOk result (HasText (position_after at (some_line l)) (items_of text.new)) }
    ensures later { K.faults sink.old ≤ K.faults sink.new }
    ensures same { OnOk result (K.faults sink.new ≡ K.faults sink.old) }
    ensures cause { IsErrOf result Fault.WriteFault → Rose (K.faults sink.old) (K.faults sink.new) }
    ensures not_read { IsErrOf result Fault.ReadFault → ⊥ }
{
    if line.is_empty() {
        return Ok(());
    }
    answer_line(alloc, session, text, line, machine, sink)?;
    Ok(())
}

// At the end of the script, ends a text that is still open.
fn answer_end<K: Sink>(
    alloc: Global,
    session: &mut Session,
    text: &Option<Vec<u8>>,
    machine: &mut Machine,
    sink: &mut K,
) -> Result<(), Fault>
    requires lives { (w : World) × IsSessionOf w session.old machine.old }
    ensures answers { (w : World) (at : Position) → IsSessionOf w session.old machine.old
        → HasText at (items_of text.now)
        → AnswersAll result w (open_entries at) session.new machine.new
        (K.held sink.old) (K.held sink.new) }
    ensures later { K.faults sink.old ≤ K.faults sink.new }
    ensures same { OnOk result (K.faults sink.new ≡ K.faults sink.old) }
    ensures cause { IsErrOf result Fault.WriteFault → Rose (K.faults sink.old) (K.faults sink.new) }
    ensures not_read { IsErrOf result Fault.ReadFault → ⊥ }
{
    let Some(text) = text else {
        return Ok(());
    };
    answer(alloc, session, LOAD_LINE, text, machine, sink)?;
    Ok(())
}

// Reads a line, acts on it and writes the reply.
fn take_turn<S: Source, K: Sink>(
    alloc: Global,
    session: &mut Session,
    text: &mut Option<Vec<u8>>,
    line: &mut Vec<u8>,
    room: &mut u32,
    source: &mut S,
    sink: &mut K,
    machine: &mut Machine,
) -> Result<Turn, Fault>
    requires lives { (w : World) × IsSessionOf w session.old machine.old }
    requires stands { (at : Position) × HasText at (items_of text.old) }
    ensures turns { (w : World) (at : Position) → IsSessionOf w session.old machine.old
        → HasText at (items_of text.old) → ¬ (at ≡ Behind)
        → Turns result (record {
          kept = line.new.items;
          room = room.old;
          room_then = room.new;
          left = S.left source.old;
          left_then = S.left source.new;
        })
        (record {
          world = w;
          at = at;
          session = session.new;
          machine = machine.new;
          text = items_of text.new;
          held = K.held sink.old;
          held_then = K.held sink.new;
        }) }
    ensures source { S.faults source.old ≤ S.faults source.new }
    ensures sink { K.faults sink.old ≤ K.faults sink.new }
    ensures same_source { OnOk result (S.faults source.new ≡ S.faults source.old) }
    ensures same_sink { OnOk result (K.faults sink.new ≡ K.faults sink.old) }
    ensures read { IsErrOf result Fault.ReadFault
        → Rose (S.faults source.old) (S.faults source.new) }
    ensures write { IsErrOf result Fault.WriteFault → Rose (K.faults sink.old) (K.faults sink.new) }
{
    match next_line(source, line, room)? {
        Got::Whole => {
            let quit = answer_line(alloc, session, text, stripped(line), machine, sink)?;
            Ok(if quit { Turn::Quit } else { Turn::On })
        }
        Got::Last => {
            answer_last(alloc, session, text, line, machine, sink)?;
            Ok(Turn::Last)
        }
        Got::TooFar => Ok(Turn::TooFar),
    }
}

// Reads on where no further line is acted on.
fn final_turn<S: Source>(
    line: &mut Vec<u8>,
    room: &mut u32,
    source: &mut S,
) -> Result<Ending, LineFault>
    ensures finals { Finals result (record {
      kept = line.new.items;
      room = room.old;
      room_then = room.new;
      left = S.left source.old;
      left_then = S.left source.new;
    }) }
    ensures later { S.faults source.old ≤ S.faults source.new }
    ensures cause { IsErrOf result LineFault.SourceFailed
        → Rose (S.faults source.old) (S.faults source.new) }
{
    match next_line(source, line, room)? {
        Got::Last => Ok(if line.as_slice().is_empty() {
            Ending::Done
        } else {
            Ending::TooMany
        }),
        Got::Whole => Ok(Ending::TooMany),
        Got::TooFar => Ok(Ending::TooMany),
    }
}

/// Answers the lines of a script, each before the next is read, on a machine that was not used.
pub(crate) fn serve_script<S: Source, K: Sink>(
    alloc: Global,
    source: &mut S,
    sink: &mut K,
    machine: &mut Machine,
) -> Result<Ending, Fault>
    requires unused { machine.old ≡ zero_machine }
    ensures serves { Serves result (record {
      left = S.left source.old;
      left_then = S.left source.new;
      faults = S.faults source.old;
      faults_then = S.faults source.new;
    })
        (record {
          held = K.held sink.old;
          held_then = K.held sink.new;
          faults = K.faults sink.old;
          faults_then = K.faults sink.new;
        })
        machine.new }
    ensures source { S.faults source.old ≤ S.faults source.new }
    ensures sink { K.faults sink.old ≤ K.faults sink.new }
    ensures read { IsErrOf result Fault.ReadFault
        → Rose (S.faults source.old) (S.faults source.new) }
    ensures write { IsErrOf result Fault.WriteFault → Rose (K.faults sink.old) (K.faults sink.new) }
{
    let mut session = Session::new(alloc)?;
    let mut text = None;
    let mut line = Vec::new(alloc);
    let mut room = MAX_BYTES;
    for _turn in 1..MAX_LINES {
        match take_turn(
            alloc,
            &mut session,
            &mut text,
            &mut line,
            &mut room,
            source,
            sink,
            machine,
        )? {
            Turn::On => {}
            Turn::Quit => return Ok(Ending::Done),
            Turn::Last => {
                answer_end(alloc, &mut session, &text, machine, sink)?;
                return Ok(Ending::Done);
            }
            Turn::TooFar => return Ok(Ending::TooMany),
        }
    }
    match final_turn(&mut line, &mut room, source)? {
        Ending::Done => {
            answer_end(alloc, &mut session, &text, machine, sink)?;
            Ok(Ending::Done)
        }
        Ending::TooMany => Ok(Ending::TooMany),
    }
}
