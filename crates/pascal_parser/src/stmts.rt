//! All the tokens as a statement, or as the header of one.
ghost use Rattle.std.specs.Prelude.{◌≡◌, ◌≤◌, true, length, IfOk};
ghost use Rattle.std.specs.List.{AllByRecursion};
ghost use Rattle.pascal_tree.specs.Formed.{is_formed_stmt};
ghost use Rattle.pascal_tree.specs.Sources.{HasLexeme};
ghost use Rattle.pascal_tree.specs.declared.levels.TheConstants.{LEVELS};
ghost use Rattle.pascal_tree.specs.Statements.{stmt_at, header_at};
ghost use Rattle.statement_parser.specs.Readers.{stmt_in, header_in};
ghost use Rattle.pascal_parser.specs.Named.{named_stmt, named_header};
ghost use Rattle.token_reader.specs.Answers.{Answers, IsReading, Makes, kinds};
ghost use Rattle.token_reader.specs.Faults.{read_whole};
ghost use Rattle.token_reader.specs.Readers.{Reads};

use crate::ParseFault;
use dice_base::{Name, Token};
use pascal_tree::{Header, LEVELS, Stmt};
use sqlite_items::Boxed;
use statement_parser::{header, statement};
use std::alloc::Global;
use token_reader::{Cursor, Stop, read_all};
use tree_names::number_stmt;

fn boxed_statement(
    alloc: Global,
    tokens: &mut Cursor<'_>,
    depth: usize,
) -> Result<Boxed<Stmt>, Stop>
    ensures { Reads (stmt_in depth tokens.old) result tokens.new }
{
    let stmt = statement(alloc, tokens, depth)?;
    Ok(Boxed::new(alloc, stmt)?)
}

fn read_statement(alloc: Global, tokens: &[Token]) -> Result<Boxed<Stmt>, ParseFault>
    requires { length tokens.now ≤ 65536 }
    ensures { Answers (read_whole stmt_in LEVELS (kinds tokens.now)) result }
{
    read_all(alloc, tokens, LEVELS, boxed_statement)
}

fn name_statement(alloc: Global, read: Result<Boxed<Stmt>, ParseFault>) -> Result<Stmt, ParseFault>
    ensures { Makes named_stmt read result }
{
    let tree = read?;
    let (stmt, _) = number_stmt(alloc, tree.get(), 1)?;
    Ok(stmt)
}

/// The statement that the tokens are (ISO 7185:1990, 6.8), itself at level 1.
#[tactic(auto, using(crate::proofs::Readings::stmt_reading))]
pub fn parse_statement(alloc: Global, tokens: &[Token]) -> Result<Stmt, ParseFault>
    requires few { length tokens.now ≤ 65536 }
    requires lexemes { AllByRecursion HasLexeme (kinds tokens.now) }
    ensures reading { IsReading stmt_at LEVELS named_stmt (kinds tokens.now) result }
    ensures formed { IfOk result (λ stmt. is_formed_stmt stmt ≡ true) }
{
    name_statement(alloc, read_statement(alloc, tokens))
}

fn header_within(alloc: Global, tokens: &mut Cursor<'_>, depth: usize) -> Result<Stmt, Stop>
    ensures { Reads (header_in depth tokens.old) result tokens.new }
{
    header(alloc, tokens, depth)
}

fn read_header(alloc: Global, tokens: &[Token]) -> Result<Stmt, ParseFault>
    requires { length tokens.now ≤ 65536 }
    ensures { Answers (read_whole header_in LEVELS (kinds tokens.now)) result }
{
    read_all(alloc, tokens, LEVELS, header_within)
}

fn name_header(read: Result<Stmt, ParseFault>) -> Result<Header, ParseFault>
    ensures { Makes named_header read result }
{
    let stmt = read?;
    Ok(Header {
        stmt: Stmt {
            name: Name(1),
            label: stmt.label,
            kind: stmt.kind,
        },
    })
}

/// The statement that the tokens are, in which each substatement is written `#`, and the statements of a `repeat` as
/// one `#`.
#[tactic(auto, using(crate::proofs::Readings::header_reading))]
pub fn parse_header(alloc: Global, tokens: &[Token]) -> Result<Header, ParseFault>
    requires few { length tokens.now ≤ 65536 }
    requires lexemes { AllByRecursion HasLexeme (kinds tokens.now) }
    ensures reading { IsReading header_at LEVELS named_header (kinds tokens.now) result }
{
    name_header(read_header(alloc, tokens))
}
