//! Commands: what a line is read as, with the text that it takes.
ghost use Rattle.std.specs.Prelude.{◌≡◌, ◌≤◌, [], IfOk};
ghost use Rattle.dice_command.specs.Line.{Load, Replace};
ghost use Rattle.dice_command.specs.Command.{IsAskedFor, IsCommandOf, IsTold, IsWellRead, is_quit, takes_text};
ghost use Rattle.dice_command.specs.declared.command.Command.TheVariants.{Bad};

use crate::line::{LineCommand, line_command};
use crate::reading::{read_program, read_statement};
use dice_base::{Name, NoMemory};
use pascal_parser::ParseFault;
use pascal_scanner::ScanFault;
use pascal_tree::Stmt;
use program_tree::Program;
use std::alloc::Global;

/// What is wrong with a line, or with the text that it takes.
#[derive(Clone, Copy, PartialEq, Eq)]
pub enum CommandFault {
    /// It has more than 4,096 bytes.
    LineTooLong,
    /// Its first word is no command, a word is missing, or words are left over. A line with a byte other than a tab
    /// and the printing characters is no command.
    NotACommand,
    /// No number from 1 to 1,000,000 stands where one is wanted.
    BadNumber,
    /// Its text is not cut into tokens.
    Scan(ScanFault),
    /// The tokens of its text are no program, or no statement, within the levels that there are.
    Parse(ParseFault),
}

impl From<ScanFault> for CommandFault {
    ghost use Rattle.dice_command.specs.declared.command.CommandFault.TheVariants.{Scan};

    ghost from_gives = { λ scan fault. fault ≡ Scan scan };

    fn from(fault: ScanFault) -> Self {
        CommandFault::Scan(fault)
    }
}

impl From<ParseFault> for CommandFault {
    ghost use Rattle.dice_command.specs.declared.command.CommandFault.TheVariants.{Parse};

    ghost from_gives = { λ parse fault. fault ≡ Parse parse };

    fn from(fault: ParseFault) -> Self {
        CommandFault::Parse(fault)
    }
}

/// What is to be done. Trees are whole: a text that is not read is a command that is `Bad`.
#[derive(Drop)]
pub enum Command {
    /// Nothing: the line is empty, or all of it is spaces and tabs.
    Blank,
    /// To load this program.
    Load(Program),
    /// To list the draft.
    List,
    /// To put this statement in the place of the one of this name, 1 to 1,000,000.
    Replace(Name, Stmt),
    /// To put the edits into force.
    Apply,
    /// To run over so many gates, 1 to 1,000,000.
    Run(u32),
    /// To end the script.
    Quit,
    /// A command that is not built yet.
    Unbuilt,
    /// The line is no command, or its text is not read. The fault is never want of memory.
    Bad(CommandFault),
}

impl Command {
    /// Whether the script ends here.
    pub fn is_quit(&self) -> bool
        ensures { result ≡ is_quit self.now }
    {
        match self {
            Command::Quit => true,
            Command::Blank
            | Command::Load(_)
            | Command::List
            | Command::Replace(_, _)
            | Command::Apply
            | Command::Run(_)
            | Command::Unbuilt
            | Command::Bad(_) => false,
        }
    }
}

/// Whether a line, without its end, takes the lines behind it as its text, up to a line `.`: `load` alone.
pub fn takes_text(line: &[u8]) -> bool
    ensures { result ≡ takes_text line.now }
{
    match line_command(line) {
        LineCommand::Load => true,
        LineCommand::Blank
        | LineCommand::List
        | LineCommand::Replace(_, _)
        | LineCommand::Apply
        | LineCommand::Run(_)
        | LineCommand::Quit
        | LineCommand::Unbuilt
        | LineCommand::Bad(_) => false,
    }
}

/// The command of a line, without the line's end, and of the text that it takes, if it takes one.
pub fn parse_command(alloc: Global, line: &[u8], body: &[u8]) -> Result<Command, NoMemory>
    ensures command { IfOk result (λ c. IsCommandOf line.now body.now c) }
    ensures well_read { IfOk result (λ c. IsWellRead c) }
{
    match line_command(line) {
        LineCommand::Blank => Ok(Command::Blank),
        LineCommand::Load => load(alloc, body),
        LineCommand::List => Ok(Command::List),
        LineCommand::Replace(name, text) => replace(alloc, name, text),
        LineCommand::Apply => Ok(Command::Apply),
        LineCommand::Run(gates) => Ok(Command::Run(gates)),
        LineCommand::Quit => Ok(Command::Quit),
        LineCommand::Unbuilt => Ok(Command::Unbuilt),
        LineCommand::Bad(fault) => refused(fault),
    }
}

fn load(alloc: Global, body: &[u8]) -> Result<Command, NoMemory>
    ensures command { IfOk result (λ c. IsAskedFor Load body.now c) }
    ensures well_read { IfOk result (λ c. IsWellRead c) }
{
    match read_program(alloc, body) {
        Ok(program) => Ok(Command::Load(program)),
        Err(fault) => refused(fault),
    }
}

fn replace(alloc: Global, name: u32, text: &[u8]) -> Result<Command, NoMemory>
    requires { (1 ≤ name) × (name ≤ 1000000) }
    ensures command { IfOk result (λ c. IsAskedFor (Replace name text.now) [] c) }
    ensures well_read { IfOk result (λ c. IsWellRead c) }
{
    match read_statement(alloc, text) {
        Ok(stmt) => Ok(Command::Replace(Name(name), stmt)),
        Err(fault) => refused(fault),
    }
}

// Want of memory is no fault of a line.
fn refused(fault: CommandFault) -> Result<Command, NoMemory>
    ensures command { IfOk result (λ c. c ≡ Bad fault) }
    ensures told { IfOk result (λ c. IsTold fault) }
{
    match fault {
        CommandFault::Scan(ScanFault::NoMemory) | CommandFault::Parse(ParseFault::NoMemory) => {
            Err(NoMemory)
        }
        CommandFault::LineTooLong
        | CommandFault::NotACommand
        | CommandFault::BadNumber
        | CommandFault::Scan(_)
        | CommandFault::Parse(_) => Ok(Command::Bad(fault)),
    }
}
