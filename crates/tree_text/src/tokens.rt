//! Single tokens.
ghost use Rattle.std.specs.Prelude.{◌≡◌, ◌++◌, ◌∷◌, [], OnOk};
ghost use Rattle.pascal_tree.specs.Joined.{separator};

use dice_base::{NoMemory, Text, TokenKind};
use std::alloc::Global;

/// Adds the word symbol of a number.
pub fn push_word(word: u8, out: &mut Vec<TokenKind>) -> Result<(), NoMemory>
    ensures { OnOk result (out.new.items ≡ out.old.items ++ TokenKind.Word word ∷ []) }
{
    out.push(TokenKind::Word(word))?;
    Ok(())
}

/// Adds the sign of a number.
pub fn push_sign(sign: u8, out: &mut Vec<TokenKind>) -> Result<(), NoMemory>
    ensures { OnOk result (out.new.items ≡ out.old.items ++ TokenKind.Sign sign ∷ []) }
{
    out.push(TokenKind::Sign(sign))?;
    Ok(())
}

/// Adds a number.
pub fn push_number(number: u16, out: &mut Vec<TokenKind>) -> Result<(), NoMemory>
    ensures { OnOk result (out.new.items ≡ out.old.items ++ TokenKind.Number number ∷ []) }
{
    out.push(TokenKind::Number(number))?;
    Ok(())
}

/// Adds an identifier.
pub fn push_ident(alloc: Global, ident: &Text, out: &mut Vec<TokenKind>) -> Result<(), NoMemory>
    ensures { OnOk result (out.new.items ≡ out.old.items ++ TokenKind.Ident ident.now ∷ []) }
{
    let ident = ident.copy(alloc)?;
    out.push(TokenKind::Ident(ident))?;
    Ok(())
}

/// Adds a character string.
pub fn push_str(alloc: Global, text: &Text, out: &mut Vec<TokenKind>) -> Result<(), NoMemory>
    ensures { OnOk result (out.new.items ≡ out.old.items ++ TokenKind.Str text.now ∷ []) }
{
    let text = text.copy(alloc)?;
    out.push(TokenKind::Str(text))?;
    Ok(())
}

/// Adds the sign before an item of a list, unless the item is the first.
pub fn separate(sign: u8, first: bool, out: &mut Vec<TokenKind>) -> Result<(), NoMemory>
    ensures { OnOk result (out.new.items ≡ out.old.items ++ separator (TokenKind.Sign sign) first) }
{
    if first { Ok(()) } else { push_sign(sign, out) }
}
