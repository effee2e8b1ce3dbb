//! The words of the target's memory that a block is given.
ghost use Rattle.std.specs.Prelude.{◌≡◌, ◌≤◌, ◌+◌, length};
ghost use Rattle.pascal_semantics.specs.Charge.{charge_of, charges_of, program_charge, operand_charge, sum_charge};

use crate::{Operand, SimpleForm, Statement, Sum};

/// The words of the program's own block.
pub const PROGRAM_CHARGE: u32 = 32;

/// The words that the block of a statement of this form takes, the rest of them filled with HALT: 8 to 84.
pub fn charge(form: &SimpleForm) -> u32
    ensures words { result ≡ charge_of form.now }
    ensures small { result ≤ 84 }
{
    match form {
        SimpleForm::Assign(_, value) => 32 + charge_of_sum(value),
        SimpleForm::WriteLine(value, None) => 40 + charge_of_sum(value),
        SimpleForm::WriteLine(value, Some(_)) => 44 + charge_of_sum(value),
        SimpleForm::Empty => 8,
    }
}

/// The words that the blocks of a whole program take, its own and those of its statements.
pub fn code_words(statements: &[Statement]) -> u64
    requires few { length statements.now ≤ 4294967296 }
    ensures words { result ≡ program_charge + charges_of statements.now }
{
    let mut words = u64::from(PROGRAM_CHARGE);
    for statement in statements {
        words += u64::from(charge(&statement.form));
    }
    words
}

fn charge_of_sum(sum: &Sum) -> u32
    ensures words { result ≡ sum_charge sum.now }
    ensures small { result ≤ 40 }
{
    let first = charge_of_operand(sum.first);
    match sum.second {
        None => first,
        Some(second) => first + charge_of_operand(second) + 16,
    }
}

fn charge_of_operand(operand: Operand) -> u32
    ensures words { result ≡ operand_charge operand }
    ensures small { result ≤ 12 }
{
    match operand {
        Operand::Global(_) => 12,
        Operand::Number(_) => 4,
    }
}
