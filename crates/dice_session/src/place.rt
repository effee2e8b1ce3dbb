//! Which statement a place in the code area belongs to.
ghost use Rattle.std.specs.Prelude.{◌≡◌, ◌≤◌, ◌+◌};
ghost use Rattle.pascal_semantics.specs.Charge.{program_charge, charges_of};
ghost use Rattle.pascal_semantics.specs.Valid.{code_room};
ghost use Rattle.dice_session.specs.Places.{name_at};

use console_service::CODE_WORD;
use pascal_semantics::{PROGRAM_CHARGE, Statement, charge};

/// The name of the program itself.
const PROGRAM: u32 = 1;

/// The name of the statement whose block holds the word of this number. It is the program's own name in the program's
/// block and before it, and 0 behind all blocks.
#[tactic(auto, unfolding(crate::specs::Places::name_from))]
pub(crate) fn name_at(statements: &[Statement], place: u32) -> u32
    requires { program_charge + charges_of statements.now ≤ code_room }
    ensures { result ≡ name_at statements.now place }
{
    let mut finish = CODE_WORD as u32 + PROGRAM_CHARGE;
    if place < finish {
        return PROGRAM;
    }
    for statement in statements {
        finish += charge(&statement.form);
        if place < finish {
            return statement.name;
        }
    }
    0
}
