//! Programs.
ghost use Rattle.token_reader.specs.Readers.{Reads};
ghost use Rattle.block_parser.specs.Readers as spec;

use crate::ReadsBodies;
use crate::blocks::block;
use declaration_parser::idents;
use dice_base::Text;
use pascal_tree::{Block, Tree};
use sqlite_items::{Boxed, Items};
use std::alloc::Global;
use token_reader::classes::{CLOSE, OPEN, PERIOD, PROGRAM, SEMICOLON};
use token_reader::{Cursor, Stop};

#[tactic(auto, unfolding(crate::specs::Readers::files))]
fn files(alloc: Global, tokens: &mut Cursor<'_>) -> Result<Items<Text>, Stop>
    ensures { Reads (spec.files tokens.old) result tokens.new }
{
    match tokens.class() {
        OPEN => {
            tokens.expect(OPEN)?;
            let files = idents(alloc, tokens)?;
            tokens.expect(CLOSE)?;
            Ok(files)
        }
        _ => Ok(Items::new(alloc)),
    }
}

// A boxed block may wait for the period behind it.
fn boxed_block<B: ReadsBodies>(
    alloc: Global,
    tokens: &mut Cursor<'_>,
    depth: usize,
) -> Result<Boxed<Block>, Stop>
    ensures { Reads (spec.block_in B.body_in depth tokens.old) result tokens.new }
{
    let block = block::<B>(alloc, tokens, depth)?;
    Ok(Boxed::new(alloc, block)?)
}

/// A program (ISO 7185:1990, 6.10) in whose block so many levels nest, without names yet.
#[tactic(auto, unfolding(crate::specs::Readers::program_in, crate::specs::Readers::whole_program))]
pub fn program<B: ReadsBodies>(
    alloc: Global,
    tokens: &mut Cursor<'_>,
    depth: usize,
) -> Result<Tree, Stop>
    ensures { Reads (spec.program_in B.body_in depth tokens.old) result tokens.new }
{
    tokens.expect(PROGRAM)?;
    let ident = tokens.ident(alloc)?;
    let files = files(alloc, tokens)?;
    tokens.expect(SEMICOLON)?;
    let block = boxed_block::<B>(alloc, tokens, depth)?;
    tokens.expect(PERIOD)?;
    Ok(Tree {
        ident,
        files,
        block: block.into_inner(),
        next: 0,
    })
}
