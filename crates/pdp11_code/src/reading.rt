//! Instructions read from words.

ghost use Rattle.std.specs.Prelude.{◌≡◌, ℕ, ◌<◌, ◌≤◌, ◌/◌, List, length, take, IfSome};
ghost use Rattle.pdp11_code.specs.Code.{shape_at, wants_next, ea_at, read_as, instruction_at};
ghost use Rattle.pdp11_code.specs.Write.{IsInstr, words_of};

use crate::instr::{Ea, Instr};
use crate::table::Shape;

/// The instruction that begins the words, and the number of its words, 1 to 3. None exactly where no instruction
/// of the table begins there, or its words end early.
pub fn decode(words: &[u16]) -> Option<(Instr, usize)>
    ensures reads { result ≡ instruction_at words.now }
    ensures listed { IfSome result (λ read. IsInstr read.0) }
    ensures number { IfSome result (λ read. read.1 ≡ length (words_of read.0)) }
    ensures written { IfSome result (λ read. words_of read.0 ≡ take read.1 words.now) }
{
    instruction(words)
}

fn instruction(words: &[u16]) -> Option<(Instr, usize)>
    ensures { result ≡ instruction_at words.now }
{
    let word = *words.first()?;
    match shape_of(word)? {
        Shape::DoubleOperand => double_operand(word, words),
        Shape::SingleOperand => single_operand(word, words),
        Shape::RegisterOperand => register_operand(word, words),
        Shape::JumpToSubroutine => jump_to_subroutine(word, words),
        Shape::ReturnFromSubroutine => Some((Instr::Rts((word % 8) as u8), 1)),
        Shape::SubtractOneAndBranch => {
            Some((
                Instr::Sob((word / 0o100 % 8) as u8, (word % 0o100) as u8),
                1,
            ))
        }
        Shape::BranchOffset => Some((Instr::Branch((word / 0o400) as u8, (word % 0o400) as u8), 1)),
        Shape::EmulatorTrap => Some((Instr::Emt((word % 0o400) as u8), 1)),
        Shape::ProgramTrap => Some((Instr::Trap((word % 0o400) as u8), 1)),
        Shape::ConditionCodes => Some((Instr::Flags(word / 0o20 % 2 == 1, (word % 0o20) as u8), 1)),
        Shape::NoOperand => Some((Instr::Bare((word % 0o400) as u8), 1)),
    }
}

// By the digits of the word, so that no instruction searches the table.
fn shape_of(word: u16) -> Option<Shape>
    ensures { result ≡ shape_at word }
{
    match word / 0o10000 {
        0 => low_shape(word),
        1..=6 => Some(Shape::DoubleOperand),
        7 => register_shape(word),
        0o10 => high_shape(word),
        0o11..=0o16 => Some(Shape::DoubleOperand),
        _ => None,
    }
}

fn low_shape(word: u16) -> Option<Shape>
    requires { word < 0o10000 }
    ensures { result ≡ shape_at word }
{
    match word / 0o100 {
        0o00 => bare_shape(word),
        0o01 => if word < 0o110 {
            None
        } else {
            Some(Shape::SingleOperand)
        },
        0o02 => return_shape(word),
        0o03 => Some(Shape::SingleOperand),
        0o04..=0o37 => Some(Shape::BranchOffset),
        0o40..=0o47 => call_shape(word),
        0o50..=0o63 => Some(Shape::SingleOperand),
        0o67 => Some(Shape::SingleOperand),
        _ => None,
    }
}

fn bare_shape(word: u16) -> Option<Shape>
    requires { word < 0o100 }
    ensures { result ≡ shape_at word }
{
    match word {
        0 => Some(Shape::NoOperand),
        2..=4 => Some(Shape::NoOperand),
        6 => Some(Shape::NoOperand),
        _ => None,
    }
}

fn return_shape(word: u16) -> Option<Shape>
    requires { word / 0o100 ≡ 0o2 }
    ensures { result ≡ shape_at word }
{
    match word / 0o10 {
        0o20 => Some(Shape::ReturnFromSubroutine),
        0o24..=0o27 => Some(Shape::ConditionCodes),
        _ => None,
    }
}

fn call_shape(word: u16) -> Option<Shape>
    requires { word / 0o1000 ≡ 0o4 }
    ensures { result ≡ shape_at word }
{
    if word / 0o10 % 8 == 0 {
        None
    } else {
        Some(Shape::JumpToSubroutine)
    }
}

fn register_shape(word: u16) -> Option<Shape>
    requires { word / 0o10000 ≡ 0o7 }
    ensures { result ≡ shape_at word }
{
    match word / 0o1000 {
        0o70 => Some(Shape::RegisterOperand),
        0o71 => division_shape(word),
        0o72 => Some(Shape::RegisterOperand),
        0o74 => Some(Shape::RegisterOperand),
        0o77 => Some(Shape::SubtractOneAndBranch),
        _ => None,
    }
}

fn division_shape(word: u16) -> Option<Shape>
    requires { word / 0o1000 ≡ 0o71 }
    ensures { result ≡ shape_at word }
{
    if word / 0o100 % 2 == 0 {
        Some(Shape::RegisterOperand)
    } else {
        None
    }
}

fn high_shape(word: u16) -> Option<Shape>
    requires { word / 0o10000 ≡ 0o10 }
    ensures { result ≡ shape_at word }
{
    match word / 0o400 {
        0o200..=0o207 => Some(Shape::BranchOffset),
        0o210 => Some(Shape::EmulatorTrap),
        0o211 => Some(Shape::ProgramTrap),
        0o212..=0o214 => Some(Shape::SingleOperand),
        _ => None,
    }
}

fn takes_next(mode: u8, register: u8) -> bool
    ensures { result ≡ wants_next mode register }
{
    mode >= 6 || register == 7 && (mode == 2 || mode == 3)
}

// The operand in the six low bits of the field, with its word at this index, and the index after it.
fn operand(words: &[u16], at: usize, field: u16) -> Option<(Ea, usize)>
    requires { at < 4 }
    ensures { result ≡ ea_at words.now at field }
{
    let mode = (field / 0o10 % 8) as u8;
    let register = (field % 8) as u8;
    if takes_next(mode, register) {
        let next = *words.get(at)?;
        Some((
            Ea {
                mode,
                register,
                next: Some(next),
            },
            at + 1,
        ))
    } else {
        Some((
            Ea {
                mode,
                register,
                next: None,
            },
            at,
        ))
    }
}

fn double_operand(word: u16, words: &[u16]) -> Option<(Instr, usize)>
    ensures { result ≡ read_as Shape.DoubleOperand word words.now }
{
    let (source, at) = operand(words, 1, word / 0o100)?;
    let (target, end) = operand(words, at, word)?;
    Some((
        Instr::Two((word / 0o10000 % 8) as u8, word >= 0o100000, source, target),
        end,
    ))
}

fn single_operand(word: u16, words: &[u16]) -> Option<(Instr, usize)>
    ensures { result ≡ read_as Shape.SingleOperand word words.now }
{
    let (target, end) = operand(words, 1, word)?;
    Some((
        Instr::One((word / 0o100 % 0o400) as u8, word >= 0o100000, target),
        end,
    ))
}

fn register_operand(word: u16, words: &[u16]) -> Option<(Instr, usize)>
    ensures { result ≡ read_as Shape.RegisterOperand word words.now }
{
    let (source, end) = operand(words, 1, word)?;
    Some((
        Instr::Extended((word / 0o1000 % 8) as u8, (word / 0o100 % 8) as u8, source),
        end,
    ))
}

fn jump_to_subroutine(word: u16, words: &[u16]) -> Option<(Instr, usize)>
    ensures { result ≡ read_as Shape.JumpToSubroutine word words.now }
{
    let (target, end) = operand(words, 1, word)?;
    Some((Instr::Jsr((word / 0o100 % 8) as u8, target), end))
}
