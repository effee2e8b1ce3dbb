//! What the instructions of one operand make of its value: PDP-11/40 Processor Handbook, chapter 4.

ghost use Rattle.std.specs.Prelude.{◌≡◌, ℕ, ◌+◌, ◌-◌, ◌*◌, ◌/◌, ◌%◌, ◌<◌};
ghost use Rattle.pdp11_arithmetic.specs.Words.{whole, half};
ghost use Rattle.pdp11_arithmetic.specs.Bits.{bit_of};
ghost use Rattle.pdp11_arithmetic.specs.Outcome.{complement, increment, decrement, negation, carry_sum, carry_difference, shift_outcome, right_rotation, left_rotation, right_shift, left_shift, outcome_of};

use crate::words::{half_of, whole_of};

/// A new value, and V and C; N and Z are by the value.
#[derive(Clone, Copy)]
pub struct Outcome {
    /// A word, or a byte below 256.
    pub value: u16,
    /// V.
    pub overflow: bool,
    /// C.
    pub carry: bool,
}

fn complement(byte: bool, v: u16) -> Outcome
    requires { v < whole byte }
    ensures { result ≡ complement byte v }
{
    Outcome {
        value: (whole_of(byte) - 1 - v as u32) as u16,
        overflow: false,
        carry: true,
    }
}

fn increment(byte: bool, carry: bool, v: u16) -> Outcome
    requires { v < whole byte }
    ensures { result ≡ increment byte carry v }
{
    Outcome {
        value: ((v as u32 + 1) % whole_of(byte)) as u16,
        overflow: v == half_of(byte) - 1,
        carry,
    }
}

fn decrement(byte: bool, carry: bool, v: u16) -> Outcome
    requires { v < whole byte }
    ensures { result ≡ decrement byte carry v }
{
    let whole = whole_of(byte);
    Outcome {
        value: ((v as u32 + (whole - 1)) % whole) as u16,
        overflow: v == half_of(byte),
        carry,
    }
}

fn negation(byte: bool, v: u16) -> Outcome
    requires { v < whole byte }
    ensures { result ≡ negation byte v }
{
    let whole = whole_of(byte);
    Outcome {
        value: ((whole - v as u32) % whole) as u16,
        overflow: v == half_of(byte),
        carry: v != 0,
    }
}

fn add_carry(byte: bool, carry: bool, v: u16) -> Outcome
    requires { v < whole byte }
    ensures { result ≡ carry_sum byte carry v }
{
    let whole = whole_of(byte);
    Outcome {
        value: ((v as u32 + carry_bit(carry)) % whole) as u16,
        overflow: carry && v == half_of(byte) - 1,
        carry: carry && v as u32 == whole - 1,
    }
}

fn subtract_carry(byte: bool, carry: bool, v: u16) -> Outcome
    requires { v < whole byte }
    ensures { result ≡ carry_difference byte carry v }
{
    let whole = whole_of(byte);
    Outcome {
        value: ((v as u32 + (whole - carry_bit(carry))) % whole) as u16,
        overflow: carry && v == half_of(byte),
        carry: carry && v == 0,
    }
}

fn shifted(byte: bool, value: u16, carry: bool) -> Outcome
    ensures { result ≡ shift_outcome byte value carry }
{
    Outcome {
        value,
        overflow: (value >= half_of(byte)) != carry,
        carry,
    }
}

fn rotate_right(byte: bool, carry: bool, v: u16) -> Outcome
    requires { v < whole byte }
    ensures { result ≡ right_rotation byte carry v }
{
    let top = if carry { half_of(byte) } else { 0 };
    shifted(byte, v / 2 + top, v % 2 == 1)
}

fn rotate_left(byte: bool, carry: bool, v: u16) -> Outcome
    requires { v < whole byte }
    ensures { result ≡ left_rotation byte carry v }
{
    let value = (2 * v as u32 + carry_bit(carry)) % whole_of(byte);
    shifted(byte, value as u16, v >= half_of(byte))
}

fn shift_right(byte: bool, v: u16) -> Outcome
    requires { v < whole byte }
    ensures { result ≡ right_shift byte v }
{
    let half = half_of(byte);
    let top = if v >= half { half } else { 0 };
    shifted(byte, v / 2 + top, v % 2 == 1)
}

fn shift_left(byte: bool, v: u16) -> Outcome
    requires { v < whole byte }
    ensures { result ≡ left_shift byte v }
{
    let value = 2 * v as u32 % whole_of(byte);
    shifted(byte, value as u16, v >= half_of(byte))
}

/// What an instruction makes of a byte or a word at this carry. `op` is bits 6 to 14 of its word: 0o51 to 0o56 are COM,
/// INC, DEC, NEG, ADC and SBC, 0o60 to 0o63 are ROR, ROL, ASR and ASL.
#[tactic(auto, unfolding(crate::specs::Outcome::outcome_of))]
pub fn apply(op: u8, byte: bool, carry: bool, v: u16) -> Outcome
    requires { v < whole byte }
    ensures { result ≡ outcome_of op byte carry v }
{
    match op {
        0o51 => complement(byte, v),
        0o52 => increment(byte, carry, v),
        0o53 => decrement(byte, carry, v),
        0o54 => negation(byte, v),
        0o55 => add_carry(byte, carry, v),
        0o56 => subtract_carry(byte, carry, v),
        0o60 => rotate_right(byte, carry, v),
        0o61 => rotate_left(byte, carry, v),
        0o62 => shift_right(byte, v),
        _ => shift_left(byte, v),
    }
}

fn carry_bit(carry: bool) -> u32
    ensures { result ≡ bit_of carry }
{
    if carry { 1 } else { 0 }
}
