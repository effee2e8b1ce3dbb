//! The bytes of a program's text.
ghost use Rattle.std.specs.Prelude.{◌≡◌};
ghost use Rattle.dice_base.specs.Lexemes.{class};

/// What a byte can be in a program's text, outside comments and strings.
#[derive(Clone, Copy, Debug, PartialEq, Eq)]
pub enum ByteClass {
    /// A letter of either case.
    Letter,
    /// A decimal digit.
    Digit,
    /// Tab, line feed, carriage return or space.
    Separator,
    /// Any other byte.
    Mark,
}

/// What a byte can be.
pub fn byte_class(byte: u8) -> ByteClass
    ensures { result ≡ class byte }
{
    match byte {
        b'A'..=b'Z' | b'a'..=b'z' => ByteClass::Letter,
        b'0'..=b'9' => ByteClass::Digit,
        b'\t' | b'\n' | b'\r' | b' ' => ByteClass::Separator,
        _ => ByteClass::Mark,
    }
}
