//! Multiplication, division and shifts of signed words: PDP-11/40 Processor Handbook, chapter 7.

ghost use Rattle.std.specs.Prelude.{◌≡◌, ℕ, ◌+◌, ◌-◌, ◌*◌, ◌/◌, ◌%◌, ◌^◌, ◌<◌, ◌≤◌};
ghost use Rattle.pdp11_arithmetic.specs.Bits.{differs};
ghost use Rattle.pdp11_arithmetic.specs.Arithmetic.{is_negative, magnitude, with_sign, leaves_word, product_magnitude, product, pair_magnitude, division, wide_left, sign_changes, wide_right};

fn is_below_zero(word: u16) -> bool
    ensures { result ≡ is_negative word }
{
    word >= 32768
}

fn size_of(word: u16) -> u32
    ensures value { result ≡ magnitude word }
    ensures small { result ≤ 32768 }
{
    if is_below_zero(word) {
        65536 - word as u32
    } else {
        word as u32
    }
}

fn leaves_range(negative: bool, size: u64) -> bool
    ensures { result ≡ leaves_word negative size }
{
    if negative { size > 32768 } else { size > 32767 }
}

/// The product of two signed words in 32 bits: MUL.
pub fn product_of(a: u16, b: u16) -> u32
    ensures { result ≡ product a b }
{
    let size = size_of(a) * size_of(b);
    if is_below_zero(a) != is_below_zero(b) {
        0u32.wrapping_sub(size)
    } else {
        size
    }
}

/// Whether the product of two signed words does not fit a signed word: C of MUL.
pub fn product_leaves_range(a: u16, b: u16) -> bool
    ensures { result ≡ leaves_word (differs (is_negative a) (is_negative b)) (product_magnitude a b) }
{
    leaves_range(
        is_below_zero(a) != is_below_zero(b),
        (size_of(a) * size_of(b)) as u64,
    )
}

fn pair_size_of(high: u16, low: u16) -> u64
    ensures { result ≡ pair_magnitude high low }
{
    let pair = 65536 * high as u64 + low as u64;
    if is_below_zero(high) {
        4294967296 - pair
    } else {
        pair
    }
}

fn word_of(negative: bool, size: u64) -> u16
    requires { size < 65536 }
    ensures { result ≡ with_sign 65536 negative size }
{
    if negative {
        ((65536 - size) % 65536) as u16
    } else {
        size as u16
    }
}

/// The quotient and the remainder of the signed 32 bits of `high` and `low` by a word: DIV. The quotient is rounded
/// towards 0, and the remainder has the sign of what is divided. None where the quotient does not fit a word.
pub fn division_of(high: u16, low: u16, divisor: u16) -> Option<(u16, u16)>
    requires { 0 < divisor }
    ensures { result ≡ division high low divisor }
{
    let negative = is_below_zero(high) != is_below_zero(divisor);
    let pair = pair_size_of(high, low);
    let size = size_of(divisor) as u64;
    if leaves_range(negative, pair / size) {
        None
    } else {
        Some((
            word_of(negative, pair / size),
            word_of(is_below_zero(high), pair % size),
        ))
    }
}

/// A word shifted left by so many bits, with no bit lost: ASH.
pub fn wide_left_of(word: u16, count: u16) -> u64
    requires { count < 32 }
    ensures value { result ≡ wide_left word count }
    ensures small { result < 2 ^ 48 }
{
    (word as u64) << count
}

/// Whether the sign changes at any time while a word is shifted left by so many bits: V of ASH.
pub fn changes_sign(word: u16, count: u16) -> bool
    requires { count < 32 }
    ensures { result ≡ sign_changes word count }
{
    let passed = wide_left_of(word, count) / 32768;
    !(passed == 0 || passed + 1 == 2u64 << count)
}

/// A word with its sign extended to 48 bits, to be shifted right by 32 at most: ASH.
pub fn wide_right_of(word: u16) -> u64
    ensures { result ≡ wide_right word }
{
    if is_below_zero(word) {
        281474976645120 + word as u64
    } else {
        word as u64
    }
}
