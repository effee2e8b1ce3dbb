//! What a line asks for.
ghost use Rattle.std.specs.Prelude.{◌≡◌, ◌≤◌, length};
ghost use Rattle.dice_command.specs.Line.{asked, asked_of, by_keyword, alone, one_number, number_and_text, fits, is_side, IsInRange};

use crate::command::CommandFault;
use crate::keyword::{Arguments, Keyword, keyword_of};
use crate::words::{after_word, is_identifier, is_text, number_of, past_blanks, word_of};

/// A line of more bytes is no command.
const LONGEST_LINE: usize = 4096;

/// What a line asks for.
#[derive(Clone, Copy)]
pub enum LineCommand<'a> {
    /// Nothing: the line is empty, or all of it is spaces and tabs.
    Blank,
    /// To load the program whose text stands in the lines that follow, up to a line `.`.
    Load,
    /// To list the program.
    List,
    /// To replace the statement of this name, 1 to 1,000,000, by a text, which may be empty. Blanks at the end of the
    /// line belong to the text.
    Replace(u32, &'a [u8]),
    /// To put the edits into force.
    Apply,
    /// To run over so many gates, 1 to 1,000,000.
    Run(u32),
    /// To end the script.
    Quit,
    /// A command that is not built yet.
    Unbuilt,
    /// The line is no command.
    Bad(CommandFault),
}

/// What a line asks for, without the line's end.
pub(crate) fn line_command(line: &[u8]) -> LineCommand<'_>
    ensures command { asked result ≡ asked_of line.now }
    ensures in_range { IsInRange (asked result) }
{
    if line.len() > LONGEST_LINE {
        return LineCommand::Bad(CommandFault::LineTooLong);
    }
    let word = word_of(line);
    if word.is_empty() {
        return LineCommand::Blank;
    }
    if !is_text(line) {
        return LineCommand::Bad(CommandFault::NotACommand);
    }
    let rest = after_word(line);
    match keyword_of(word) {
        None => LineCommand::Bad(CommandFault::NotACommand),
        Some(keyword) => with_arguments(keyword, rest),
    }
}

fn with_arguments(keyword: Keyword, rest: &[u8]) -> LineCommand<'_>
    requires { length rest.now ≤ 4096 }
    ensures command { asked result ≡ by_keyword keyword rest.now }
    ensures in_range { IsInRange (asked result) }
{
    match keyword {
        Keyword::Load => alone(LineCommand::Load, rest),
        Keyword::List => alone(LineCommand::List, rest),
        Keyword::Replace => replace(rest),
        Keyword::Apply => alone(LineCommand::Apply, rest),
        Keyword::Run => run(rest),
        Keyword::Quit => alone(LineCommand::Quit, rest),
        Keyword::Unbuilt(arguments) if fits(arguments, rest) => LineCommand::Unbuilt,
        Keyword::Unbuilt(_) => LineCommand::Bad(CommandFault::NotACommand),
    }
}

fn alone<'a>(command: LineCommand<'a>, rest: &[u8]) -> LineCommand<'a>
    ensures command { asked result ≡ alone (asked command.entry) rest.now }
    ensures in_range { IsInRange (asked command.entry) → IsInRange (asked result) }
{
    if word_of(rest).is_empty() {
        command
    } else {
        LineCommand::Bad(CommandFault::NotACommand)
    }
}

fn run(rest: &[u8]) -> LineCommand<'_>
    ensures command { asked result ≡ one_number rest.now }
    ensures in_range { IsInRange (asked result) }
{
    if !word_of(after_word(rest)).is_empty() {
        return LineCommand::Bad(CommandFault::NotACommand);
    }
    match number_of(word_of(rest)) {
        Some(gates) => LineCommand::Run(gates),
        None => LineCommand::Bad(CommandFault::BadNumber),
    }
}

fn replace(rest: &[u8]) -> LineCommand<'_>
    requires { length rest.now ≤ 4096 }
    ensures command { asked result ≡ number_and_text rest.now }
    ensures in_range { IsInRange (asked result) }
{
    match number_of(word_of(rest)) {
        Some(name) => LineCommand::Replace(name, past_blanks(after_word(rest))),
        None => LineCommand::Bad(CommandFault::BadNumber),
    }
}

// Whether a command that is not built yet may have this behind its first word.
fn fits(arguments: Arguments, rest: &[u8]) -> bool
    ensures { result ≡ fits arguments rest.now }
{
    match arguments {
        Arguments::Nothing => word_of(rest).is_empty(),
        Arguments::Number => word_of(after_word(rest)).is_empty(),
        Arguments::Text => true,
        Arguments::Side => is_side(word_of(rest)),
        Arguments::Identifier => {
            is_identifier(word_of(rest)) && word_of(after_word(after_word(rest))).is_empty()
        }
    }
}

fn is_side(word: &[u8]) -> bool
    ensures { result ≡ is_side word.now }
{
    word == b"before".as_slice() || word == b"after".as_slice() || word == b"first".as_slice()
}
