//! Instructions written as words.

ghost use Rattle.std.specs.Prelude.{◌≡◌, ℕ, ◌<◌, ◌≤◌, ◌∷◌, ◌++◌, List, length, take, drop, Some};
ghost use Rattle.pdp11_code.specs.Code.{instruction_at};
ghost use Rattle.pdp11_code.specs.Write.{words_of, IsInstr, IsEa, first_word, high_bit, field_of, next_words};

use crate::instr::{Ea, Instr};

/// Writes the words of an instruction from the first place on, and gives their number, 1 to 3. The places behind
/// them stay.
pub fn encode(instr: &Instr, out: &mut [u16; 3]) -> usize
    requires { IsInstr instr.now }
    ensures number { result ≡ length (words_of instr.now) }
    ensures words { take result out.new ≡ words_of instr.now }
    ensures behind { drop result out.new ≡ drop result out.old }

    // Whatever stands behind them, the words are read as this instruction again.
    ensures read_again { (rest : List ℕ) → instruction_at (words_of instr.now ++ rest) ≡ Some (instr.now, result) }
{
    write_instruction(instr, out)
}

fn write_instruction(instr: &Instr, out: &mut [u16; 3]) -> usize
    requires { IsInstr instr.now }
    ensures number { result ≡ length (words_of instr.now) }
    ensures words { take result out.new ≡ words_of instr.now }
    ensures behind { drop result out.new ≡ drop result out.old }
{
    match instr {
        Instr::Two(op, high, source, target) => {
            let first = high_part(*high)
                + *op as u16 * 0o10000
                + field(source) * 0o100
                + field(target);
            write_two(first, source.next, target.next, out)
        }
        Instr::Extended(op, register, source) => {
            let first = 0o070000 + *op as u16 * 0o1000 + *register as u16 * 0o100 + field(source);
            write_one(first, source.next, out)
        }
        Instr::One(op, high, target) => {
            write_one(
                high_part(*high) + *op as u16 * 0o100 + field(target),
                target.next,
                out,
            )
        }
        Instr::Jsr(register, target) => {
            write_one(
                0o004000 + *register as u16 * 0o100 + field(target),
                target.next,
                out,
            )
        }
        Instr::Rts(register) => write_one(0o000200 + *register as u16, None, out),
        Instr::Sob(register, back) => {
            write_one(
                0o077000 + *register as u16 * 0o100 + *back as u16,
                None,
                out,
            )
        }
        Instr::Branch(high, low) => write_one(*high as u16 * 0o400 + *low as u16, None, out),
        Instr::Emt(low) => write_one(0o104000 + *low as u16, None, out),
        Instr::Trap(low) => write_one(0o104400 + *low as u16, None, out),
        Instr::Flags(set, bits) => {
            write_one(
                0o000240 + if *set { 0o20 } else { 0 } + *bits as u16,
                None,
                out,
            )
        }
        Instr::Bare(word) => write_one(*word as u16, None, out),
    }
}

fn high_part(high: bool) -> u16
    ensures { result ≡ high_bit high }
{
    if high { 0o100000 } else { 0 }
}

fn field(ea: &Ea) -> u16
    requires { IsEa ea.now }
    ensures value { result ≡ field_of ea.now }
    ensures small { result < 64 }
{
    ea.mode as u16 * 0o10 + ea.register as u16
}

fn write_one(first: u16, next: Option<u16>, out: &mut [u16; 3]) -> usize
    ensures number { result ≡ length (first ∷ next_words next) }
    ensures words { take result out.new ≡ first ∷ next_words next }
    ensures behind { drop result out.new ≡ drop result out.old }
{
    out[0] = first;
    match next {
        None => 1,
        Some(word) => {
            out[1] = word;
            2
        }
    }
}

fn write_two(first: u16, source: Option<u16>, target: Option<u16>, out: &mut [u16; 3]) -> usize
    ensures number { result ≡ length (first ∷ (next_words source ++ next_words target)) }
    ensures words { take result out.new ≡ first ∷ (next_words source ++ next_words target) }
    ensures behind { drop result out.new ≡ drop result out.old }
{
    out[0] = first;
    let mut at = 1;
    if let Some(word) = source {
        out[at] = word;
        at += 1;
    }
    if let Some(word) = target {
        out[at] = word;
        at += 1;
    }
    at
}
