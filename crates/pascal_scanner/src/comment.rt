//! Comments (ISO 7185:1990, 6.1.8).
ghost use Rattle.std.specs.Prelude.{◌≡◌, ◌≤◌, length, IfOk, IfErr, IfSome, true};
ghost use Rattle.dice_base.specs.Lexemes as lex;
ghost use Rattle.pascal_scanner.specs.Longest as longest;
ghost use Rattle.pascal_scanner.specs.Progress.{Steps, Stops};

use crate::front::{Step, Stop};

/// Whether a comment opens at the front of a text.
pub fn opens_comment(text: &[u8]) -> bool
    ensures { result ≡ lex.opens_comment text.now }
{
    match text {
        [] => false,
        [first] => *first == b'{',
        [first, second, ..] => *first == b'{' || (*first == b'(' && *second == b'*'),
    }
}

// The length of the `{` or `(*` at the front of a text.
fn opening_len(text: &[u8]) -> usize
    requires { lex.opens_comment text.now ≡ true }
    ensures value { result ≡ longest.opening_len text.now }
    ensures within { result ≤ length text.now }
{
    match text {
        [b'{', ..] => 1,
        _ => 2,
    }
}

// The length of the `}` or `*)` at the front of a text.
fn closing_len(text: &[u8]) -> Option<usize>
    ensures value { result ≡ longest.closing_len text.now }
    ensures within { IfSome result (λ n. n ≤ length text.now) }
{
    match text {
        [b'}', ..] => Some(1),
        [b'*', b')', ..] => Some(2),
        _ => None,
    }
}

// The length of a text up to its first `}` or `*)`, and with it.
fn closed_len(text: &[u8]) -> Option<usize>
    ensures value { result ≡ longest.closed_len text.now }
    ensures within { IfSome result (λ n. n ≤ length text.now) }
{
    for at in 0..text.len() {
        if let Some(len) = closing_len(&text[at..]) {
            return Some(at + len);
        }
    }
    None
}

/// Reads the comment that opens at the front of a text.
pub fn comment_step(text: &[u8]) -> Result<Step, Stop>
    requires { lex.opens_comment text.now ≡ true }
    ensures ok { IfOk result (Steps text.now) }
    ensures err { IfErr result (Stops text.now) }
{
    let opening = opening_len(text);
    match closed_len(&text[opening..]) {
        Some(len) => Ok(Step::Gap(opening + len)),
        None => Err(Stop::Comment),
    }
}
