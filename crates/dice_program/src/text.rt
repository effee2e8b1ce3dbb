//! The text that is to be loaded, line by line.
ghost use Rattle.std.specs.Prelude.{◌≡◌, ◌≤◌, ◌++◌, [], ◌∷◌, length, take, IfOk, OnOk};
ghost use Rattle.dice_program.specs.Kept.{kept_text};

use dice_base::NoMemory;

/// So many bytes of a text are kept at most: one more than the longest that is loaded.
const KEPT_TEXT: usize = 65_537;

/// The text with one line more, and its line feed. No more than a front of it is kept.
pub(crate) fn with_line(text: Vec<u8>, line: &[u8]) -> Result<Vec<u8>, NoMemory>
    requires { length text.items ≤ kept_text }
    ensures { IfOk result (λ more. more.items ≡ take kept_text (take kept_text (text.items ++ line.now) ++ 10 ∷ [])) }
{
    let mut text = text;
    add_front(&mut text, line)?;
    add_front(&mut text, b"\n")?;
    Ok(text)
}

fn add_front(text: &mut Vec<u8>, bytes: &[u8]) -> Result<(), NoMemory>
    requires { length text.old.items ≤ kept_text }
    ensures { OnOk result (text.new.items ≡ take kept_text (text.old.items ++ bytes.now)) }
{
    let room = KEPT_TEXT - text.len();
    let count = bytes.len().min(room);
    text.extend_from_slice(&bytes[..count])?;
    Ok(())
}
