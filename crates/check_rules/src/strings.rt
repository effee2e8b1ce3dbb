//! Character strings (ISO 7185:1990, 6.1.7).
ghost use Rattle.std.specs.Prelude.{◌≡◌, IfOk};
ghost use Rattle.check_rules.specs.Strings as spec;

use crate::kinds::{CLEAN, MAX_COUNTED, MAX_STRING, WRONG_CONSTANT};
use crate::{Constant, Host, JudgedConstant, Typing};
use dice_base::{NoMemory, Text};
use std::alloc::Global;

/// No constant, with a fault of this kind. Takes no memory.
pub fn faulty_constant(kind: u8) -> JudgedConstant
    ensures { result ≡ spec.faulty_constant kind }
{
    JudgedConstant {
        value: Constant::Number(0),
        typing: Typing::Unknown,
        kind,
    }
}

/// The constant of a string: a character, or a string of more.
pub fn string_constant(alloc: Global, text: &Text) -> Result<JudgedConstant, NoMemory>
    ensures { IfOk result (λ c. c ≡ spec.string_constant text.now) }
{
    match text.bytes() {
        [] => Ok(faulty_constant(WRONG_CONSTANT)),
        [byte] => Ok(JudgedConstant {
            value: Constant::Number(*byte as i32),
            typing: Typing::Ordinal(Host::Char),
            kind: CLEAN,
        }),
        bytes => {
            let chars = Text::from_slice(alloc, bytes)?;
            Ok(chars_constant(chars))
        }
    }
}

fn chars_constant(chars: Text) -> JudgedConstant
    ensures { result ≡ spec.chars_constant chars }
{
    let length = chars.bytes().len();
    let kind = if length <= MAX_STRING {
        CLEAN
    } else {
        WRONG_CONSTANT
    };
    let counted = if length < MAX_COUNTED as usize {
        length as u32
    } else {
        MAX_COUNTED
    };
    JudgedConstant {
        value: Constant::Chars(chars),
        typing: Typing::Literal(counted),
        kind,
    }
}
