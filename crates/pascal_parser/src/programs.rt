//! All the tokens as a program, or as a routine.
ghost use Rattle.std.specs.Prelude.{◌≡◌, ◌≤◌, ◌-◌, true, length, IfOk};
ghost use Rattle.std.specs.List.{AllByRecursion};
ghost use Rattle.pascal_tree.specs.Formed.{is_formed, is_formed_routine};
ghost use Rattle.pascal_tree.specs.Sources.{HasLexeme};
ghost use Rattle.pascal_tree.specs.declared.levels.TheConstants.{LEVELS};
ghost use Rattle.pascal_tree.specs.Naming.{numbered_program};
ghost use Rattle.pascal_tree.specs.Programs.{program_at, routine_at};
ghost use Rattle.block_parser.specs.Readers as blocks;
ghost use Rattle.statement_parser.specs.Readers as statements;
ghost use Rattle.pascal_parser.specs.Named.{named_routine};
ghost use Rattle.token_reader.specs.Answers.{Answers, IsReading, Makes, kinds};
ghost use Rattle.token_reader.specs.Faults.{read_whole};
ghost use Rattle.token_reader.specs.Readers.{Reads};

use crate::ParseFault;
use block_parser::{ReadsBodies, program, routine};
use dice_base::{NoMemory, Token};
use pascal_tree::{LEVELS, Routine, StmtKind, Tree};
use program_tree::Program;
use sqlite_items::Boxed;
use statement_parser::body;
use std::alloc::Global;
use token_reader::{Cursor, Stop, read_all};
use tree_names::{number_program, number_routine};

/// The bodies of blocks are compound statements.
pub struct Bodies;

impl ReadsBodies for Bodies {
    ghost use Rattle.statement_parser.specs.Readers as statements;

    ghost body_in = { statements.body_in };

    fn body(alloc: Global, tokens: &mut Cursor<'_>, depth: usize) -> Result<StmtKind, Stop> {
        body(alloc, tokens, depth)
    }
}

fn boxed_program(alloc: Global, tokens: &mut Cursor<'_>, depth: usize) -> Result<Boxed<Tree>, Stop>
    ensures { Reads (blocks.program_in statements.body_in depth tokens.old) result tokens.new }
{
    let tree = program::<Bodies>(alloc, tokens, depth)?;
    Ok(Boxed::new(alloc, tree)?)
}

fn read_program(alloc: Global, tokens: &[Token]) -> Result<Boxed<Tree>, ParseFault>
    requires { length tokens.now ≤ 65536 }
    ensures { Answers (read_whole (blocks.program_in statements.body_in) (LEVELS - 1)
        (kinds tokens.now)) result }
{
    read_all(alloc, tokens, LEVELS - 1, boxed_program)
}

// The program of a tree, with the names of its items: it is formed with them as it is without.
#[tactic(auto, using(crate::proofs::Readings::named_formed))]
fn named_program(alloc: Global, tree: &Tree) -> Result<Program, NoMemory>
    requires { is_formed tree.now ≡ true }
    ensures { IfOk result (λ program. program ≡ numbered_program tree.now) }
{
    let tree = number_program(alloc, tree)?;
    Program::from_numbered(alloc, tree)
}

fn name_program(alloc: Global, read: Result<Boxed<Tree>, ParseFault>) -> Result<Program, ParseFault>
    requires { IfOk read (λ tree. is_formed tree ≡ true) }
    ensures { Makes numbered_program read result }
{
    let tree = read?;
    let program = named_program(alloc, tree.get())?;
    Ok(program)
}

/// The program that the tokens are (ISO 7185:1990, 6.10). It is at level 1, and so is its block.
#[tactic(auto, using(crate::proofs::Readings::program_reading))]
pub fn parse_program(alloc: Global, tokens: &[Token]) -> Result<Program, ParseFault>
    requires few { length tokens.now ≤ 65536 }
    requires lexemes { AllByRecursion HasLexeme (kinds tokens.now) }
    ensures reading { IsReading program_at (LEVELS - 1) numbered_program (kinds tokens.now) result }
{
    name_program(alloc, read_program(alloc, tokens))
}

fn boxed_routine(
    alloc: Global,
    tokens: &mut Cursor<'_>,
    depth: usize,
) -> Result<Boxed<Routine>, Stop>
    ensures { Reads (blocks.routine_in statements.body_in depth tokens.old) result tokens.new }
{
    let routine = routine::<Bodies>(alloc, tokens, depth)?;
    Ok(Boxed::new(alloc, routine)?)
}

fn read_routine(alloc: Global, tokens: &[Token]) -> Result<Boxed<Routine>, ParseFault>
    requires { length tokens.now ≤ 65536 }
    ensures { Answers (read_whole (blocks.routine_in statements.body_in) LEVELS
        (kinds tokens.now)) result }
{
    read_all(alloc, tokens, LEVELS, boxed_routine)
}

fn name_routine(
    alloc: Global,
    read: Result<Boxed<Routine>, ParseFault>,
) -> Result<Routine, ParseFault>
    ensures { Makes named_routine read result }
{
    let tree = read?;
    let (routine, _) = number_routine(alloc, tree.get(), 1)?;
    Ok(routine)
}

/// The procedure or function that the tokens are (6.6), itself at level 1.
#[tactic(auto, using(crate::proofs::Readings::routine_reading))]
pub fn parse_routine(alloc: Global, tokens: &[Token]) -> Result<Routine, ParseFault>
    requires few { length tokens.now ≤ 65536 }
    requires lexemes { AllByRecursion HasLexeme (kinds tokens.now) }
    ensures reading { IsReading routine_at LEVELS named_routine (kinds tokens.now) result }
    ensures formed { IfOk result (λ routine. is_formed_routine routine ≡ true) }
{
    name_routine(alloc, read_routine(alloc, tokens))
}
