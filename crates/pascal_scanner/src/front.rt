//! What stands at the front of a text.
ghost use Rattle.std.specs.Prelude.{◌≡◌, ◌<◌, ◌≤◌, map, length, take, drop, slice_index, true, nat_le, if◌then◌else◌, IfOk, IfErr, IfSome, Some, None};
ghost use Rattle.dice_base.specs.Lexemes as lex;
ghost use Rattle.dice_base.specs.declared.byte.ByteClass.TheVariants.{Letter, Digit, Mark};
ghost use Rattle.pascal_scanner.specs.declared.front.Stop.TheVariants.{Memory};
ghost use Rattle.pascal_scanner.specs.Longest.{front};
ghost use Rattle.pascal_scanner.specs.Longest as longest;
ghost use Rattle.pascal_scanner.specs.Progress.{Steps, Stops};

use crate::comment::{comment_step, opens_comment};
use crate::sign::{place_of, sign_step};
use crate::string::{opens_string, string_step};
use dice_base::{ByteClass, NoMemory, Text, TokenKind, WORD_SYMBOLS, byte_class};
use std::alloc::Global;

/// What stands at the front of a text, with its length in bytes.
#[derive(Drop)]
pub enum Step {
    /// What stands between tokens.
    Gap(usize),
    /// A token.
    Lexed(TokenKind, usize),
}

/// Why a text is not read on.
#[derive(Clone, Copy)]
pub enum Stop {
    Memory,
    Character,
    Comment,
    String,
    Number,
}

impl From<NoMemory> for Stop {
    ghost from_gives = { λ _ e. e ≡ Memory };

    fn from(_: NoMemory) -> Self {
        Stop::Memory
    }
}

const LARGEST_NUMBER: u32 = 32_767;

fn is_word_byte(byte: u8) -> bool
    ensures { result ≡ lex.word_byte byte }
{
    match byte_class(byte) {
        ByteClass::Letter => true,
        ByteClass::Digit => true,
        _ => false,
    }
}

fn is_digit_byte(byte: u8) -> bool
    ensures { result ≡ lex.digit_byte byte }
{
    match byte_class(byte) {
        ByteClass::Digit => true,
        _ => false,
    }
}

// The length of the letters and digits at the front of a text.
#[tactic(auto, using(crate::proofs::Fronts::loop_steps))]
fn word_len(text: &[u8]) -> usize
    ensures { result ≡ length (front lex.word_byte text.now) }
{
    for (at, byte) in text.iter().enumerate() {
        if !is_word_byte(*byte) {
            return at;
        }
    }
    text.len()
}

// The length of the digits at the front of a text.
#[tactic(auto, using(crate::proofs::Fronts::loop_steps))]
fn digits_len(text: &[u8]) -> usize
    ensures { result ≡ length (front lex.digit_byte text.now) }
{
    for (at, byte) in text.iter().enumerate() {
        if !is_digit_byte(*byte) {
            return at;
        }
    }
    text.len()
}

// The value of digits, where it is no larger than a number may be.
fn number_of(digits: &[u8]) -> Option<u16>
    ensures { let value = lex.value_of digits.now in
        result ≡ (if nat_le value lex.largest_number then Some value else None) }
{
    let mut value: u32 = 0;
    for digit in digits {
        value = 10 * value + u32::from(digit.saturating_sub(b'0'));
        if value > LARGEST_NUMBER {
            return None;
        }
    }
    Some(value as u16)
}

#[tactic(auto, unfolding(dice_base::specs::Lexemes::word_symbol))]
fn word_symbol(piece: &[u8]) -> Option<u8>
    ensures { result ≡ lex.word_symbol piece.now }
{
    place_of(&WORD_SYMBOLS, piece)
}

// The same bytes with small letters.
fn lowered(alloc: Global, bytes: &[u8]) -> Result<Text, NoMemory>
    ensures { IfOk result (λ t. t ≡ map lex.lower bytes.now) }
{
    let mut text = Text::new(alloc);
    for byte in bytes {
        text.push(alloc, byte.to_ascii_lowercase())?;
    }
    Ok(text)
}

// The word symbol of this spelling, or an identifier.
fn named(alloc: Global, bytes: &[u8]) -> Result<TokenKind, NoMemory>
    ensures { IfOk result (λ kind. kind ≡ lex.named bytes.now) }
{
    let text = lowered(alloc, bytes)?;
    Ok(match word_symbol(text.bytes()) {
        Some(number) => TokenKind::Word(number),
        None => TokenKind::Ident(text),
    })
}

fn word_step(alloc: Global, text: &[u8]) -> Result<Step, NoMemory>
    requires some { 0 < length text.now }
    requires begins { lex.class (slice_index text.now 0) ≡ Letter }
    ensures { IfOk result (Steps text.now) }
{
    let len = word_len(text);
    let kind = named(alloc, &text[..len])?;
    Ok(Step::Lexed(kind, len))
}

fn number_step(text: &[u8]) -> Result<Step, Stop>
    requires some { 0 < length text.now }
    requires begins { lex.class (slice_index text.now 0) ≡ Digit }
    ensures ok { IfOk result (Steps text.now) }
    ensures err { IfErr result (Stops text.now) }
{
    let len = digits_len(text);
    match number_of(&text[..len]) {
        Some(value) => Ok(Step::Lexed(TokenKind::Number(value), len)),
        None => Err(Stop::Number),
    }
}

fn mark_step(alloc: Global, text: &[u8]) -> Result<Step, Stop>
    requires some { 0 < length text.now }
    requires begins { lex.class (slice_index text.now 0) ≡ Mark }
    ensures ok { IfOk result (Steps text.now) }
    ensures err { IfErr result (Stops text.now) }
{
    if opens_comment(text) {
        return comment_step(text);
    }
    if opens_string(text) {
        return string_step(alloc, text);
    }
    if text[0] == b'#' {
        return Ok(Step::Lexed(TokenKind::Hole, 1));
    }
    sign_step(text)
}

/// Reads what stands at the front of a text.
pub fn read_step(alloc: Global, text: &[u8]) -> Result<Step, Stop>
    requires { 0 < length text.now }
    ensures ok { IfOk result (Steps text.now) }
    ensures err { IfErr result (Stops text.now) }
{
    match byte_class(text[0]) {
        ByteClass::Letter => {
            let step = word_step(alloc, text)?;
            Ok(step)
        }
        ByteClass::Digit => number_step(text),
        ByteClass::Separator => Ok(Step::Gap(1)),
        ByteClass::Mark => mark_step(alloc, text),
    }
}
