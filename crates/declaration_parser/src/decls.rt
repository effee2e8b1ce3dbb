//! Declarations.
ghost use Rattle.pascal_tree.specs.Classes.{comma_class};
ghost use Rattle.token_reader.specs.Readers.{Reads, number, separated};
ghost use Rattle.declaration_parser.specs.Readers as spec;

use crate::consts::constant;
use crate::names::idents;
use crate::types::declared_type;
use dice_base::Name;
use pascal_tree::{Decl, DeclKind};
use sqlite_items::Items;
use std::alloc::Global;
use token_reader::classes::{COLON, COMMA, CONST, EQUAL, LABEL, TYPE, VAR};
use token_reader::{Cursor, Stop};

#[tactic(auto, using(token_reader::proofs::Turns::many_step, token_reader::proofs::Turns::many_stop), unfolding(token_reader::specs::Readers::separated))]
fn numbers(alloc: Global, tokens: &mut Cursor<'_>) -> Result<Items<u16>, Stop>
    ensures { Reads (separated comma_class number tokens.old) result tokens.new }
{
    let mut found = Items::new(alloc);
    found.push(tokens.number()?)?;
    for _turn in 0..tokens.len() {
        match tokens.class() {
            COMMA => {
                tokens.expect(COMMA)?;
                found.push(tokens.number()?)?;
            }
            _ => return Ok(found),
        }
    }
    Ok(found)
}

/// The labels of a block (ISO 7185:1990, 6.2.1), behind the word.
#[tactic(auto, unfolding(crate::specs::Readers::labels))]
pub fn labels(alloc: Global, tokens: &mut Cursor<'_>) -> Result<DeclKind, Stop>
    ensures { Reads (spec.labels tokens.old) result tokens.new }
{
    Ok(DeclKind::LabelDecl(numbers(alloc, tokens)?))
}

/// A constant definition (6.3) without the word.
#[tactic(auto, unfolding(crate::specs::Readers::constdef))]
pub fn constdef(alloc: Global, tokens: &mut Cursor<'_>) -> Result<DeclKind, Stop>
    ensures { Reads (spec.constdef tokens.old) result tokens.new }
{
    let ident = tokens.ident(alloc)?;
    tokens.expect(EQUAL)?;
    let value = constant(alloc, tokens)?;
    Ok(DeclKind::ConstDecl(ident, value))
}

/// A type definition (6.4.1) without the word; its type has one of so many levels.
#[tactic(auto, unfolding(crate::specs::Readers::typedef))]
pub fn typedef(alloc: Global, tokens: &mut Cursor<'_>, depth: usize) -> Result<DeclKind, Stop>
    ensures { Reads (spec.typedef (spec.type_in depth) tokens.old) result tokens.new }
{
    let ident = tokens.ident(alloc)?;
    tokens.expect(EQUAL)?;
    let shape = declared_type(alloc, tokens, depth)?;
    Ok(DeclKind::TypeDecl(ident, shape))
}

/// Variables of one type (6.5.1), without the word; their type has one of so many levels.
#[tactic(auto, unfolding(crate::specs::Readers::vardef))]
pub fn vardef(alloc: Global, tokens: &mut Cursor<'_>, depth: usize) -> Result<DeclKind, Stop>
    ensures { Reads (spec.vardef (spec.type_in depth) tokens.old) result tokens.new }
{
    let idents = idents(alloc, tokens)?;
    tokens.expect(COLON)?;
    let shape = declared_type(alloc, tokens, depth)?;
    Ok(DeclKind::VarDecl(idents, shape))
}

#[tactic(auto, unfolding(crate::specs::Readers::declared))]
fn declared(alloc: Global, tokens: &mut Cursor<'_>, depth: usize) -> Result<DeclKind, Stop>
    ensures { Reads (spec.declared (spec.type_in depth) tokens.old) result tokens.new }
{
    match tokens.class() {
        LABEL => {
            tokens.expect(LABEL)?;
            labels(alloc, tokens)
        }
        CONST => {
            tokens.expect(CONST)?;
            constdef(alloc, tokens)
        }
        TYPE => {
            tokens.expect(TYPE)?;
            typedef(alloc, tokens, depth)
        }
        _ => {
            tokens.expect(VAR)?;
            vardef(alloc, tokens, depth)
        }
    }
}

/// One declaration by itself, with its word, and without a name yet; its type has one of so many levels.
#[tactic(auto, unfolding(crate::specs::Readers::decl))]
pub fn decl(alloc: Global, tokens: &mut Cursor<'_>, depth: usize) -> Result<Decl, Stop>
    ensures { Reads (spec.decl depth tokens.old) result tokens.new }
{
    let kind = declared(alloc, tokens, depth)?;
    Ok(Decl {
        name: Name(0),
        kind,
    })
}
