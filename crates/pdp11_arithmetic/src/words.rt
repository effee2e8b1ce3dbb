//! Sums and differences of words and bytes: PDP-11/40 Processor Handbook, chapter 4.

ghost use Rattle.std.specs.Prelude.{◌≡◌, ℕ, ◌+◌, ◌-◌, ◌%◌, ◌<◌};
ghost use Rattle.pdp11_arithmetic.specs.Words.{whole, half, sum_overflows, difference, difference_leaves};

/// The least value that is negative, of a byte or of a word.
pub fn half_of(byte: bool) -> u16
    ensures { result ≡ half byte }
{
    if byte { 128 } else { 32768 }
}

pub(crate) fn whole_of(byte: bool) -> u32
    ensures { result ≡ whole byte }
{
    if byte { 256 } else { 65536 }
}

/// Whether the sum of two words does not fit a signed word: V of ADD.
pub fn sum_leaves_range(a: u16, b: u16) -> bool
    ensures { result ≡ sum_overflows a b }
{
    if a >= 32768 {
        b >= 32768 && (a as u32 + b as u32) < 98304
    } else {
        b < 32768 && a + b >= 32768
    }
}

/// `a - b` in the bits of a byte or a word. A byte has values below 256.
pub fn difference_of(byte: bool, a: u16, b: u16) -> u16
    requires { b < whole byte }
    ensures value { result ≡ difference byte a b }
{
    let whole = whole_of(byte);
    ((a as u32 + whole - b as u32) % whole) as u16
}

/// Whether `a - b` does not fit a signed byte or word: V of CMP and SUB.
pub fn difference_leaves_range(byte: bool, a: u16, b: u16) -> bool
    requires { b < whole byte }
    ensures { result ≡ difference_leaves byte a b }
{
    let half = half_of(byte);
    let difference = difference_of(byte, a, b);
    if a >= half {
        b < half && difference < half
    } else {
        b >= half && difference >= half
    }
}
