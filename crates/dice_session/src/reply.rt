//! The lines of replies.
ghost use Rattle.std.specs.Prelude.{◌≡◌, ◌+◌, ◌≤◌, ◌++◌, codes, OnOk};
ghost use Rattle.std.specs.Fmt.{decimal};
ghost use Rattle.tree_edit.specs.declared.fault.EditFault.TheVariants.{NoMemory as WantsMemory};
ghost use Rattle.pascal_semantics.specs.Charge.{program_charge, charges_of};
ghost use Rattle.pascal_semantics.specs.Valid.{code_room};
ghost use Rattle.dice_session.specs.World.{reply_line, loaded_line, written_part, full_words, edit_fault_text, fault_text, scan_fault_text, parse_fault_text};
ghost use Rattle.dice_session.specs.Places.{ending_text};

use crate::place::name_at;
use dice_base::{NoMemory, Text, push_decimal};
use dice_command::CommandFault;
use pascal_parser::ParseFault;
use pascal_scanner::ScanFault;
use pascal_semantics::Statement;
use std::alloc::Global;
use target_monitor::GoEnd;
use tree_edit::EditFault;

/// `loaded B blocks W words`.
pub(crate) fn push_loaded(
    alloc: Global,
    out: &mut Text,
    statements: &[Statement],
    words: usize,
) -> Result<(), NoMemory>
    requires { words ≡ program_charge + charges_of statements.now }
    ensures { OnOk result (out.new ≡ out.old ++ loaded_line statements.now) }
{
    out.append(alloc, b"loaded ")?;
    push_decimal(alloc, out, 1 + statements.len() as u64)?;
    out.append(alloc, b" blocks ")?;
    push_decimal(alloc, out, words as u64)?;
    out.append(alloc, b" words\n")
}

/// A reply of one line.
pub(crate) fn refuse(alloc: Global, out: &mut Text, text: &[u8]) -> Result<(), NoMemory>
    ensures { OnOk result (out.new ≡ out.old ++ reply_line text.now) }
{
    out.append(alloc, text)?;
    out.push(alloc, b'\n')
}

/// `code full: W words`.
pub(crate) fn push_full(alloc: Global, out: &mut Text, words: u64) -> Result<(), NoMemory>
    ensures { OnOk result (out.new ≡ out.old ++ reply_line (full_words words)) }
{
    out.append(alloc, b"code full: ")?;
    push_decimal(alloc, out, words)?;
    out.append(alloc, b" words\n")
}

/// `edited N`.
pub(crate) fn push_edited(alloc: Global, out: &mut Text, name: u32) -> Result<(), NoMemory>
    ensures { OnOk result (out.new ≡ out.old ++ reply_line (codes "edited " ++ decimal name)) }
{
    out.append(alloc, b"edited ")?;
    push_decimal(alloc, out, u64::from(name))?;
    out.push(alloc, b'\n')
}

// A reply of one line that ends with a number.
fn refuse_at(alloc: Global, out: &mut Text, text: &[u8], number: u32) -> Result<(), NoMemory>
    ensures { OnOk result (out.new ≡ out.old ++ reply_line (text.now ++ decimal number)) }
{
    out.append(alloc, text)?;
    push_decimal(alloc, out, u64::from(number))?;
    out.push(alloc, b'\n')
}

fn refuse_scan(alloc: Global, out: &mut Text, fault: ScanFault) -> Result<(), NoMemory>
    ensures { OnOk result (out.new ≡ out.old ++ reply_line (scan_fault_text fault)) }
{
    match fault {
        ScanFault::BadCharacter(at) => refuse_at(alloc, out, b"scan fault character at ", at),
        ScanFault::OpenComment(at) => refuse_at(alloc, out, b"scan fault comment at ", at),
        ScanFault::OpenString(at) => refuse_at(alloc, out, b"scan fault string at ", at),
        ScanFault::NumberTooLarge(at) => refuse_at(alloc, out, b"scan fault number at ", at),
        ScanFault::TextTooLong => refuse(alloc, out, b"text too long"),
        ScanFault::NoMemory => Err(NoMemory),
    }
}

fn refuse_parse(alloc: Global, out: &mut Text, fault: ParseFault) -> Result<(), NoMemory>
    ensures { OnOk result (out.new ≡ out.old ++ reply_line (parse_fault_text fault)) }
{
    match fault {
        ParseFault::Unexpected(token) => { refuse_at(alloc, out, b"parse fault at token ", token) }
        ParseFault::EndsEarly => refuse(alloc, out, b"parse fault end"),
        ParseFault::TooDeep => refuse(alloc, out, b"too deep"),
        ParseFault::NoMemory => Err(NoMemory),
    }
}

/// Why a line is no command, or its text not read.
pub(crate) fn refuse_line(
    alloc: Global,
    out: &mut Text,
    fault: CommandFault,
) -> Result<(), NoMemory>
    ensures { OnOk result (out.new ≡ out.old ++ reply_line (fault_text fault)) }
{
    match fault {
        CommandFault::LineTooLong => refuse(alloc, out, b"line too long"),
        CommandFault::NotACommand => refuse(alloc, out, b"not a command"),
        CommandFault::BadNumber => refuse(alloc, out, b"bad number"),
        CommandFault::Scan(fault) => refuse_scan(alloc, out, fault),
        CommandFault::Parse(fault) => refuse_parse(alloc, out, fault),
    }
}

/// Why an edit is refused.
pub(crate) fn refuse_edit(alloc: Global, out: &mut Text, fault: EditFault) -> Result<(), NoMemory>
    ensures value { OnOk result (out.new ≡ out.old ++ reply_line (edit_fault_text fault)) }
    ensures told { OnOk result (¬ (fault ≡ WantsMemory)) }
{
    match fault {
        EditFault::NoSuchName(name) => refuse_at(alloc, out, b"no such name ", name.0),
        EditFault::WrongKind(name) => refuse_at(alloc, out, b"wrong kind ", name.0),
        EditFault::TooDeep => refuse(alloc, out, b"too deep"),
        EditFault::NamesSpent => refuse(alloc, out, b"names spent"),
        EditFault::NoMemory => Err(NoMemory),
    }
}

/// What a run wrote, behind a line with its length, and closed by a line end where it has none. Nothing where nothing
/// was written.
pub(crate) fn push_written(alloc: Global, out: &mut Text, written: &[u8]) -> Result<(), NoMemory>
    ensures { OnOk result (out.new ≡ out.old ++ written_part written.now) }
{
    let Some(last) = written.last() else {
        return Ok(());
    };
    out.append(alloc, b"output ")?;
    push_decimal(alloc, out, written.len() as u64)?;
    out.append(alloc, b"\n")?;
    out.append(alloc, written)?;
    if *last == b'\n' {
        Ok(())
    } else {
        out.push(alloc, b'\n')
    }
}

/// How a run ended, with PC at this word number: the gate that it stopped at, or the word behind TRAP. Nothing is told
/// of the ends that no program comes to.
pub(crate) fn push_ending(
    alloc: Global,
    out: &mut Text,
    statements: &[Statement],
    end: GoEnd,
    place: u32,
) -> Result<(), NoMemory>
    requires { program_charge + charges_of statements.now ≤ code_room }
    ensures { OnOk result (out.new ≡ out.old ++ ending_text statements.now end place) }
{
    match end {
        GoEnd::Counted | GoEnd::AtBreak => {
            out.append(alloc, b"stopped at ")?;
            push_decimal(alloc, out, name_at(statements, place) as u64)?;
            out.append(alloc, b"\n")
        }
        GoEnd::Ended => out.append(alloc, b"ended\n"),
        GoEnd::Error(error) => {
            out.append(alloc, b"error ")?;
            push_decimal(alloc, out, error as u64)?;
            out.append(alloc, b" at ")?;
            push_decimal(
                alloc,
                out,
                name_at(statements, place.saturating_sub(1)) as u64,
            )?;
            out.append(alloc, b"\n")
        }
        GoEnd::MustDrain | GoEnd::Overrun | GoEnd::Bus | GoEnd::ConsoleFull => Ok(()),
    }
}
