//! The kinds of faults. The least kind of an item is the one that is reported.
ghost use Rattle.std.specs.Prelude.{◌≡◌, min};
ghost use Rattle.check_rules.specs.Faults.{kind_unless};

/// An identifier is not declared here, or only later in the innermost region that declares it.
pub const UNKNOWN: u8 = 1;
/// An identifier or a label is declared in the same region already.
pub const TWICE: u8 = 2;
/// An identifier is not of the class that its place asks for.
pub const WRONG_CLASS: u8 = 3;
/// A rule of types is broken.
pub const WRONG_TYPE: u8 = 4;
/// Arguments that do not match their parameters, or a width where none may stand.
pub const WRONG_ARGUMENTS: u8 = 5;
/// A constant that is out of its range, or stands twice in a `case`.
pub const WRONG_CONSTANT: u8 = 6;
/// A label that is out of range, not placed once, not declared, or out of a `goto`'s reach.
pub const WRONG_LABEL: u8 = 7;
/// The control variable of a `for` is not the block's own, or is changed.
pub const WRONG_CONTROL: u8 = 8;
/// A type takes more than `MAX_TYPE_WORDS`.
pub const TOO_LARGE: u8 = 9;
/// A `forward` heading and its block do not match.
pub const WRONG_FORWARD: u8 = 10;
/// A program parameter is no standard file, or stands twice.
pub const WRONG_PARAMETER: u8 = 11;
/// No fault: above all kinds.
pub const CLEAN: u8 = 12;

/// The words of a value of a type are at most so many.
pub const MAX_TYPE_WORDS: u32 = 4_096;
/// Words, ordinals of an enumeration and characters of a literal are counted up to here and no further.
pub const MAX_COUNTED: u32 = 1_000_000_000;
/// The characters of a string are at most so many.
pub const MAX_STRING: usize = 255;

/// The lesser of two kinds.
pub fn least(first: u8, second: u8) -> u8
    ensures { result ≡ min first second }
{
    if first < second { first } else { second }
}

/// The kind of a rule that is kept or broken.
pub fn kind_unless(kept: bool, kind: u8) -> u8
    ensures { result ≡ kind_unless kept kind }
{
    if kept { CLEAN } else { kind }
}
