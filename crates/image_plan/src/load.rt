//! A whole load.
ghost use Rattle.std.specs.Prelude.{◌≡◌, ◌+◌, ◌≤◌, ◌<◌, length, IfOk, OnOk, [], take, drop, vec_len};
ghost use Rattle.std.specs.List.{AllByRecursion};
ghost use Rattle.pascal_semantics.specs.Valid.{IsForm, IsProgram};
ghost use Rattle.statement_code.specs.Emitted.{IsCodeOf, IsProgramCode};
ghost use Rattle.statement_code.specs.Forms.{ProgramBlock};
ghost use Rattle.image_plan.specs.Load.{IsLoad};
ghost use Rattle.image_plan.specs.Codes.{AreCodes, image_words};

use crate::lay::lay_program;
use dice_base::NoMemory;
use statement_code::{BlockCode, Statement, emit_program, emit_simple};
use std::alloc::Global;

/// The words of a program's blocks, to be laid from `CODE_BYTE` on: the program's block, and those of its statements in
/// text order, with NOP at each gate and each link word the byte address of its end.
pub fn load_words(alloc: Global, statements: &[Statement]) -> Result<Vec<u16>, NoMemory>
    requires { IsProgram statements.now }
    ensures { IfOk result (λ words. IsLoad statements.now words.items) }
{
    let program = emit_program(alloc)?;
    let codes = emit_all(alloc, statements)?;
    lay_program(alloc, &program, &codes)
}

fn emit_all(alloc: Global, statements: &[Statement]) -> Result<Vec<BlockCode>, NoMemory>
    requires { AllByRecursion (λ s. IsForm s.form) statements.now }
    ensures { IfOk result (λ codes. AreCodes statements.now codes.items) }
{
    let mut codes = Vec::new(alloc);
    for statement in statements {
        codes.push(emit_simple(alloc, &statement.form)?)?;
    }
    Ok(codes)
}
