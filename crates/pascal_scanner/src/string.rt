//! Character strings (ISO 7185:1990, 6.1.7).
ghost use Rattle.std.specs.Prelude.{◌≡◌, IfOk, IfErr, true};
ghost use Rattle.dice_base.specs.Lexemes as lex;
ghost use Rattle.pascal_scanner.specs.Longest as longest;
ghost use Rattle.pascal_scanner.specs.Progress.{Steps, Stops};

use crate::front::{Step, Stop};
use dice_base::{Text, TokenKind};
use std::alloc::Global;

/// Whether a string opens at the front of a text.
pub fn opens_string(text: &[u8]) -> bool
    ensures { result ≡ lex.opens_string text.now }
{
    match text {
        [first, ..] => *first == b'\'',
        [] => false,
    }
}

fn is_string_byte(byte: u8) -> bool
    ensures { result ≡ lex.string_byte byte }
{
    byte == b'\t' || (b' ' <= byte && byte <= b'~')
}

// The character that the front of a text stands for within a string: an apostrophe is written twice.
fn element_of(text: &[u8]) -> Option<u8>
    ensures { result ≡ longest.element_of text.now }
{
    match text {
        [b'\'', b'\'', ..] => Some(b'\''),
        [b'\'', ..] => None,
        [byte, ..] if is_string_byte(*byte) => Some(*byte),
        _ => None,
    }
}

/// Reads the string that opens at the front of a text.
pub fn string_step(alloc: Global, text: &[u8]) -> Result<Step, Stop>
    requires { lex.opens_string text.now ≡ true }
    ensures ok { IfOk result (Steps text.now) }
    ensures err { IfErr result (Stops text.now) }
{
    let mut characters = Text::new(alloc);
    let mut at = 1;
    while let Some(character) = element_of(&text[at..]) {
        characters.push(alloc, character)?;
        at += if character == b'\'' { 2 } else { 1 };
    }
    if at > 1 && opens_string(&text[at..]) {
        Ok(Step::Lexed(TokenKind::Str(characters), at + 1))
    } else {
        Err(Stop::String)
    }
}
