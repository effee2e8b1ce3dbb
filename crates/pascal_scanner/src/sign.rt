//! Signs, in either spelling (ISO 7185:1990, 6.1.2 and 6.1.9).
ghost use Rattle.std.specs.Prelude.{◌≡◌, ◌≢◌, ◌<◌, ◌≤◌, map, length, IfOk, IfErr, IfSome, slice_index, false};
ghost use Rattle.dice_base.specs.Lexemes as lex;
ghost use Rattle.dice_base.specs.declared.byte.ByteClass.TheVariants.{Mark};
ghost use Rattle.pascal_scanner.specs.Longest as longest;
ghost use Rattle.pascal_scanner.specs.Progress.{Steps, Stops};

use crate::front::{Step, Stop};
use dice_base::{SIGNS, TokenKind, signs};

/// The place of a text in a table.
pub fn place_of(table: &[&[u8]], piece: &[u8]) -> Option<u8>
    requires { length table.now ≤ 256 }
    ensures { result ≡ lex.place_of (map (λ entry. entry.now) table.now) piece.now }
{
    for (at, entry) in table.iter().enumerate() {
        if *entry == piece {
            return Some(at as u8);
        }
    }
    None
}

// The sign that an alternative token is.
#[tactic(auto, unfolding(dice_base::specs::Lexemes::alternative_of, dice_base::specs::Lexemes::sign_of))]
fn alternative_of(piece: &[u8]) -> Option<u8>
    ensures { result ≡ lex.alternative_of piece.now }
{
    if piece == b"@".as_slice() {
        Some(signs::ARROW)
    } else if piece == b"(.".as_slice() {
        Some(signs::LEFT)
    } else if piece == b".)".as_slice() {
        Some(signs::RIGHT)
    } else {
        None
    }
}

// The sign that stands in the table of signs.
#[tactic(auto, unfolding(dice_base::specs::Lexemes::sign_of))]
fn reference_of(piece: &[u8]) -> Option<u8>
    ensures { result ≡ lex.sign_of piece.now }
{
    place_of(&SIGNS, piece)
}

// The sign of a spelling.
fn spelled_sign(piece: &[u8]) -> Option<u8>
    ensures { result ≡ longest.spelled_sign piece.now }
{
    match reference_of(piece) {
        Some(number) => Some(number),
        None => alternative_of(piece),
    }
}

fn pair_sign(text: &[u8]) -> Option<u8>
    ensures value { result ≡ longest.pair_sign text.now }
    ensures within { IfSome result (λ _. 2 ≤ length text.now) }
{
    match text {
        [first, second, ..] => spelled_sign(&[*first, *second]),
        _ => None,
    }
}

fn single_sign(text: &[u8]) -> Option<u8>
    ensures { result ≡ longest.single_sign text.now }
{
    match text {
        [first, ..] => spelled_sign(&[*first]),
        [] => None,
    }
}

/// Reads the sign at the front of a text. The longer one comes first.
pub fn sign_step(text: &[u8]) -> Result<Step, Stop>
    requires some { 0 < length text.now }
    requires begins { lex.class (slice_index text.now 0) ≡ Mark }
    requires no_comment { lex.opens_comment text.now ≡ false }
    requires no_string { lex.opens_string text.now ≡ false }
    requires no_hole { slice_index text.now 0 ≢ 35 }
    ensures ok { IfOk result (Steps text.now) }
    ensures err { IfErr result (Stops text.now) }
{
    if let Some(number) = pair_sign(text) {
        return Ok(Step::Lexed(TokenKind::Sign(number), 2));
    }
    match single_sign(text) {
        Some(number) => Ok(Step::Lexed(TokenKind::Sign(number), 1)),
        None => Err(Stop::Character),
    }
}
