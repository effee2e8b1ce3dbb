//! Tokens as text.
ghost use Rattle.std.specs.Prelude.{◌≡◌, ◌++◌, ◌∷◌, [], map, slice_index_or, OnOk};
ghost use Rattle.dice_base.specs.Lexemes.{doubled_apostrophes};
ghost use Rattle.tree_text.specs.Spelling.{spelling_of};

use dice_base::{NoMemory, SIGNS, Text, TokenKind, WORD_SYMBOLS, push_decimal};
use std::alloc::Global;

const APOSTROPHE: u8 = b'\'';

const HOLE: u8 = b'#';

// Adds an entry of a table, and nothing where there is none of that number.
fn push_entry(alloc: Global, table: &[&[u8]], number: u8, out: &mut Text) -> Result<(), NoMemory>
    ensures { OnOk result (out.new ≡ out.old ++ slice_index_or (map (λ entry. entry.now) table.now) number []) }
{
    match table.get(usize::from(number)) {
        None => Ok(()),
        Some(entry) => out.append(alloc, entry),
    }
}

// Adds a byte of a string: an apostrophe twice.
fn push_byte(alloc: Global, byte: u8, out: &mut Text) -> Result<(), NoMemory>
    ensures { OnOk result (out.new ≡ out.old ++ doubled_apostrophes (byte ∷ [])) }
{
    if byte == APOSTROPHE {
        out.push(alloc, APOSTROPHE)?;
    }
    out.push(alloc, byte)
}

fn push_doubled(alloc: Global, text: &[u8], out: &mut Text) -> Result<(), NoMemory>
    ensures { OnOk result (out.new ≡ out.old ++ doubled_apostrophes text.now) }
{
    for byte in text {
        push_byte(alloc, *byte, out)?;
    }
    Ok(())
}

#[tactic(auto, unfolding(crate::specs::Spelling::spelling_of))]
fn push_quoted(alloc: Global, text: &Text, out: &mut Text) -> Result<(), NoMemory>
    ensures { OnOk result (out.new ≡ out.old ++ spelling_of (TokenKind.Str text.now)) }
{
    out.push(alloc, APOSTROPHE)?;
    push_doubled(alloc, text.bytes(), out)?;
    out.push(alloc, APOSTROPHE)
}

/// Adds a token as it is written.
#[tactic(auto, unfolding(crate::specs::Spelling::spelling_of, crate::specs::Spelling::word_spelling, crate::specs::Spelling::sign_spelling))]
pub fn push_spelling(alloc: Global, token: &TokenKind, out: &mut Text) -> Result<(), NoMemory>
    ensures { OnOk result (out.new ≡ out.old ++ spelling_of token.now) }
{
    match token {
        TokenKind::Word(number) => push_entry(alloc, &WORD_SYMBOLS, *number, out),
        TokenKind::Ident(ident) => out.append(alloc, ident.bytes()),
        TokenKind::Number(number) => push_decimal(alloc, out, u64::from(*number)),
        TokenKind::Str(text) => push_quoted(alloc, text, out),
        TokenKind::Sign(number) => push_entry(alloc, &SIGNS, *number, out),
        TokenKind::Hole => out.push(alloc, HOLE),
    }
}
