//! Texts that are read: programs that are to be loaded, and statements that are to stand in the place of others.
ghost use Rattle.std.specs.Prelude.{◌≡◌, ◌-◌, true, IfOk};
ghost use Rattle.pascal_tree.specs.Formed.{is_formed_stmt};
ghost use Rattle.pascal_tree.specs.declared.levels.TheConstants.{LEVELS};
ghost use Rattle.pascal_tree.specs.Naming.{numbered_program};
ghost use Rattle.pascal_tree.specs.Programs.{program_at};
ghost use Rattle.pascal_tree.specs.Statements.{stmt_at};
ghost use Rattle.pascal_parser.specs.Named.{named_stmt};
ghost use Rattle.dice_command.specs.Reading.{TextSays};

use crate::command::CommandFault;
use pascal_parser::{parse_program, parse_statement};
use pascal_scanner::scan;
use pascal_tree::Stmt;
use program_tree::Program;
use std::alloc::Global;

/// The program that a text is, with its names.
pub(crate) fn read_program(alloc: Global, text: &[u8]) -> Result<Program, CommandFault>
    ensures { TextSays program_at (LEVELS - 1) numbered_program text.now result }
{
    let tokens = scan(alloc, text)?;
    let program = parse_program(alloc, &tokens)?;
    Ok(program)
}

/// The statement that a text is, with its names.
pub(crate) fn read_statement(alloc: Global, text: &[u8]) -> Result<Stmt, CommandFault>
    ensures says { TextSays stmt_at LEVELS named_stmt text.now result }
    ensures formed { IfOk result (λ stmt. is_formed_stmt stmt ≡ true) }
{
    let tokens = scan(alloc, text)?;
    let stmt = parse_statement(alloc, &tokens)?;
    Ok(stmt)
}
