//! All the tokens as a declaration, or as a heading.
ghost use Rattle.std.specs.Prelude.{◌≡◌, ◌≤◌, true, length, IfOk};
ghost use Rattle.std.specs.List.{AllByRecursion};
ghost use Rattle.pascal_tree.specs.Formed.{heading_is_formed, is_formed_decl};
ghost use Rattle.pascal_tree.specs.Sources.{HasLexeme};
ghost use Rattle.pascal_tree.specs.declared.levels.TheConstants.{LEVELS};
ghost use Rattle.pascal_tree.specs.Declarations.{decl_at};
ghost use Rattle.declaration_parser.specs.Readers as spec;
ghost use Rattle.pascal_parser.specs.Headings.{heading_at, heading_in};
ghost use Rattle.pascal_parser.specs.Named.{named_decl};
ghost use Rattle.token_reader.specs.Answers.{Answers, IsReading, Makes, kinds};
ghost use Rattle.token_reader.specs.Faults.{read_whole};
ghost use Rattle.token_reader.specs.Readers.{Reads};

use crate::ParseFault;
use declaration_parser::{decl, heading};
use dice_base::{Name, Token};
use pascal_tree::{Decl, Heading, LEVELS};
use std::alloc::Global;
use token_reader::{Cursor, Stop, read_all};

fn decl_within(alloc: Global, tokens: &mut Cursor<'_>, depth: usize) -> Result<Decl, Stop>
    ensures { Reads (spec.decl depth tokens.old) result tokens.new }
{
    decl(alloc, tokens, depth)
}

fn read_decl(alloc: Global, tokens: &[Token]) -> Result<Decl, ParseFault>
    requires { length tokens.now ≤ 65536 }
    ensures { Answers (read_whole spec.decl LEVELS (kinds tokens.now)) result }
{
    read_all(alloc, tokens, LEVELS, decl_within)
}

fn name_decl(read: Result<Decl, ParseFault>) -> Result<Decl, ParseFault>
    ensures { Makes named_decl read result }
{
    let decl = read?;
    Ok(Decl {
        name: Name(1),
        kind: decl.kind,
    })
}

/// The declaration that the tokens are (ISO 7185:1990, 6.2.1), with its word and without its semicolon, as in a
/// program's block.
#[tactic(auto, using(crate::proofs::Readings::decl_reading))]
pub fn parse_declaration(alloc: Global, tokens: &[Token]) -> Result<Decl, ParseFault>
    requires few { length tokens.now ≤ 65536 }
    requires lexemes { AllByRecursion HasLexeme (kinds tokens.now) }
    ensures reading { IsReading decl_at LEVELS named_decl (kinds tokens.now) result }
    ensures formed { IfOk result (λ decl. is_formed_decl decl ≡ true) }
{
    name_decl(read_decl(alloc, tokens))
}

// Nothing nests in a heading.
fn heading_within(alloc: Global, tokens: &mut Cursor<'_>, _depth: usize) -> Result<Heading, Stop>
    ensures { Reads (spec.heading tokens.old) result tokens.new }
{
    heading(alloc, tokens)
}

fn read_heading(alloc: Global, tokens: &[Token]) -> Result<Heading, ParseFault>
    requires { length tokens.now ≤ 65536 }
    ensures { Answers (read_whole heading_in LEVELS (kinds tokens.now)) result }
{
    read_all(alloc, tokens, LEVELS, heading_within)
}

/// The heading that the tokens are (6.6.1, 6.6.2).
pub fn parse_heading(alloc: Global, tokens: &[Token]) -> Result<Heading, ParseFault>
    requires few { length tokens.now ≤ 65536 }
    requires lexemes { AllByRecursion HasLexeme (kinds tokens.now) }
    ensures reading { IsReading heading_at LEVELS (λ h. h) (kinds tokens.now) result }
    ensures formed { IfOk result (λ heading. heading_is_formed heading ≡ true) }
{
    read_heading(alloc, tokens)
}
