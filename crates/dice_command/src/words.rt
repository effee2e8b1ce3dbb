//! The words of a line.
ghost use Rattle.std.specs.Prelude.{◌≡◌, ◌≤◌, ◌&&◌, length, nat_le, if◌then◌else◌, Some, None, IfSome};
ghost use Rattle.dice_base.specs.Lexemes.{value_of, digit_byte, word_byte, class, is_letter};
ghost use Rattle.pascal_scanner.specs.Longest.{front, past};
ghost use Rattle.dice_command.specs.Words.{is_blank, is_word_byte, is_text_byte, every, word_of, after_word, number_of, is_identifier};

use dice_base::{ByteClass, byte_class};

/// The largest number of a command.
const LARGEST_NUMBER: u32 = 1_000_000;

fn is_blank(byte: u8) -> bool
    ensures { result ≡ is_blank byte }
{
    byte == b' ' || byte == b'\t'
}

fn is_text_byte(byte: u8) -> bool
    ensures { result ≡ is_text_byte byte }
{
    byte == b'\t' || (32 <= byte && byte <= 126)
}

fn is_letter(byte: u8) -> bool
    ensures { result ≡ is_letter (class byte) }
{
    byte_class(byte) == ByteClass::Letter
}

fn is_digit(byte: u8) -> bool
    ensures { result ≡ digit_byte byte }
{
    byte_class(byte) == ByteClass::Digit
}

fn is_letter_or_digit(byte: u8) -> bool
    ensures { result ≡ word_byte byte }
{
    is_letter(byte) || is_digit(byte)
}

// The length of the blanks at the front.
#[tactic(auto, using(crate::proofs::Fronts::loop_steps))]
fn blanks_len(text: &[u8]) -> usize
    ensures value { result ≡ length (front is_blank text.now) }
    ensures within { result ≤ length text.now }
{
    for (at, byte) in text.iter().enumerate() {
        if !is_blank(*byte) {
            return at;
        }
    }
    text.len()
}

// The length of what stands before the first blank.
#[tactic(auto, using(crate::proofs::Fronts::loop_steps))]
fn solid_len(text: &[u8]) -> usize
    ensures value { result ≡ length (front is_word_byte text.now) }
    ensures within { result ≤ length text.now }
{
    for (at, byte) in text.iter().enumerate() {
        if is_blank(*byte) {
            return at;
        }
    }
    text.len()
}

/// What stands behind the blanks at the front.
pub(crate) fn past_blanks(text: &[u8]) -> &[u8]
    ensures value { result.now ≡ past is_blank text.now }
    ensures within { length result.now ≤ length text.now }
{
    &text[blanks_len(text)..]
}

/// The first word, which is empty where there is none.
pub(crate) fn word_of(text: &[u8]) -> &[u8]
    ensures { result.now ≡ word_of text.now }
{
    let text = past_blanks(text);
    &text[..solid_len(text)]
}

/// What stands behind the first word.
pub(crate) fn after_word(text: &[u8]) -> &[u8]
    ensures value { result.now ≡ after_word text.now }
    ensures within { length result.now ≤ length text.now }
{
    let text = past_blanks(text);
    &text[solid_len(text)..]
}

/// Whether all bytes are tabs and printing characters.
#[tactic(auto, using(crate::proofs::Fronts::every_steps))]
pub(crate) fn is_text(line: &[u8]) -> bool
    ensures { result ≡ every is_text_byte line.now }
{
    for byte in line {
        if !is_text_byte(*byte) {
            return false;
        }
    }
    true
}

#[tactic(auto, using(crate::proofs::Fronts::every_steps))]
fn are_digits(word: &[u8]) -> bool
    ensures { result ≡ every digit_byte word.now }
{
    for byte in word {
        if !is_digit(*byte) {
            return false;
        }
    }
    true
}

/// The value of decimal digits, where it is 1 to 1,000,000.
pub(crate) fn number_of(word: &[u8]) -> Option<u32>
    ensures value { result ≡ number_of word.now }
    ensures range { IfSome result (λ n. (1 ≤ n) × (n ≤ 1000000)) }
{
    if are_digits(word) {
        small_value(word)
    } else {
        None
    }
}

// The value of digits, where it is 1 to 1,000,000.
fn small_value(digits: &[u8]) -> Option<u32>
    ensures range { IfSome result (λ n. (1 ≤ n) × (n ≤ 1000000)) }
    ensures value { result ≡ (if nat_le 1 (value_of digits.now) && nat_le (value_of digits.now) 1000000
        then Some (value_of digits.now) else None) }
{
    let value = capped_value(digits)?;
    if value == 0 { None } else { Some(value) }
}

// The value of digits, where it is at most 1,000,000.
fn capped_value(digits: &[u8]) -> Option<u32>
    ensures range { IfSome result (λ n. n ≤ 1000000) }
    ensures value { result ≡ (if nat_le (value_of digits.now) 1000000
        then Some (value_of digits.now) else None) }
{
    let mut value: u32 = 0;
    for digit in digits {
        value = 10 * value + u32::from(digit.saturating_sub(b'0'));
        if value > LARGEST_NUMBER {
            return None;
        }
    }
    Some(value)
}

#[tactic(auto, using(crate::proofs::Fronts::every_steps))]
fn are_letters_or_digits(word: &[u8]) -> bool
    ensures { result ≡ every word_byte word.now }
{
    for byte in word {
        if !is_letter_or_digit(*byte) {
            return false;
        }
    }
    true
}

/// Whether the word is a letter, followed by letters and digits.
pub(crate) fn is_identifier(word: &[u8]) -> bool
    ensures { result ≡ is_identifier word.now }
{
    match word {
        [first, rest @ ..] => is_letter(*first) && are_letters_or_digits(rest),
        [] => false,
    }
}
