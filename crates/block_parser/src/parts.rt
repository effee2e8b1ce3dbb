//! The declarations of a block, before its routines.
ghost use Rattle.std.specs.Prelude.{◌≡◌, [], ◌∷◌};
ghost use Rattle.pascal_tree.specs.Classes.{ident_class};
ghost use Rattle.token_reader.specs.Readers.{Reads, some};
ghost use Rattle.block_parser.specs.Parts.{word_of, kind_in};
ghost use Rattle.block_parser.specs.Readers as spec;

use declaration_parser::{constdef, labels, typedef, vardef};
use dice_base::Name;
use pascal_tree::{Decl, DeclKind};
use sqlite_items::{Boxed, Items};
use std::alloc::Global;
use token_reader::classes::{CONST, IDENT, LABEL, SEMICOLON, TYPE, VAR};
use token_reader::{Cursor, Stop};

/// The labels with their word and semicolon, if there are any. They are boxed, since they wait for the rest of the
/// block.
#[tactic(auto, unfolding(crate::specs::Readers::labels_part, crate::specs::Readers::ended_decl))]
pub fn labels_part(alloc: Global, tokens: &mut Cursor<'_>) -> Result<Option<Boxed<Decl>>, Stop>
    ensures { Reads (spec.labels_part tokens.old) result tokens.new }
{
    match tokens.class() {
        LABEL => {
            tokens.expect(LABEL)?;
            let kind = labels(alloc, tokens)?;
            let decl = Boxed::new(
                alloc,
                Decl {
                    name: Name(0),
                    kind,
                },
            )?;
            tokens.expect(SEMICOLON)?;
            Ok(Some(decl))
        }
        _ => Ok(None),
    }
}

/// A part of the declarations of a block.
#[derive(Clone, Copy)]
pub enum Part {
    Consts,
    Types,
    Vars,
}

fn word(part: Part) -> u16
    ensures { result ≡ word_of part }
{
    match part {
        Part::Consts => CONST,
        Part::Types => TYPE,
        Part::Vars => VAR,
    }
}

fn kind(alloc: Global, tokens: &mut Cursor<'_>, part: Part, depth: usize) -> Result<DeclKind, Stop>
    ensures { Reads (kind_in part depth tokens.old) result tokens.new }
{
    match part {
        Part::Consts => constdef(alloc, tokens),
        Part::Types => typedef(alloc, tokens, depth),
        Part::Vars => vardef(alloc, tokens, depth),
    }
}

// A declaration is in the list before its semicolon is read, so none waits by itself.
#[tactic(auto, using(token_reader::proofs::Turns::many_step, token_reader::proofs::Turns::many_stop), unfolding(token_reader::specs::Readers::some, crate::specs::Readers::ended_decl))]
fn decls(
    alloc: Global,
    tokens: &mut Cursor<'_>,
    part: Part,
    depth: usize,
) -> Result<Items<Decl>, Stop>
    ensures { Reads (some (ident_class ∷ []) (spec.ended_decl (kind_in part depth)) tokens.old) result tokens.new }
{
    let mut found = Items::new(alloc);
    found.push(Decl {
        name: Name(0),
        kind: kind(alloc, tokens, part, depth)?,
    })?;
    tokens.expect(SEMICOLON)?;
    for _turn in 0..tokens.len() {
        if tokens.class() != IDENT {
            return Ok(found);
        }
        found.push(Decl {
            name: Name(0),
            kind: kind(alloc, tokens, part, depth)?,
        })?;
        tokens.expect(SEMICOLON)?;
    }
    Ok(found)
}

/// A part with its word, if there is one; its types have one of so many levels.
#[tactic(auto, unfolding(crate::specs::Readers::decls_part))]
pub fn decls_part(
    alloc: Global,
    tokens: &mut Cursor<'_>,
    part: Part,
    depth: usize,
) -> Result<Items<Decl>, Stop>
    ensures { Reads (spec.decls_part (word_of part) (kind_in part depth) tokens.old) result tokens.new }
{
    let word = word(part);
    if tokens.class() != word {
        return Ok(Items::new(alloc));
    }
    tokens.expect(word)?;
    decls(alloc, tokens, part, depth)
}
