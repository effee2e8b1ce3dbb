//! The command language of a script: from a line, and the text behind it, to its command.
#![tactic(auto)]

mod command;
mod keyword;
mod line;
mod reading;
mod words;

pub use command::{Command, CommandFault, parse_command, takes_text};
