//! Blocks and routines.
ghost use Rattle.std.specs.Prelude.{◌≡◌, []};
ghost use Rattle.pascal_tree.specs.Programs.{forward_of, make_block};
ghost use Rattle.token_reader.specs.Readers.{Reads, many, one};
ghost use Rattle.block_parser.specs.Readers as spec;

use crate::ReadsBodies;
use crate::parts::{Part, decls_part, labels_part};
use declaration_parser::heading;
use dice_base::Name;
use pascal_tree::{Block, Decl, Heading, Routine, Stmt, StmtKind};
use sqlite_items::{Boxed, Items};
use std::alloc::Global;
use token_reader::classes::{FUNCTION, IDENT, PROCEDURE, SEMICOLON};
use token_reader::{Cursor, Stop};

#[tactic(auto, using(crate::proofs::Further::forward_some, crate::proofs::Further::forward_none))]
fn forward(tokens: &mut Cursor<'_>) -> Result<(), Stop>
    ensures { Reads (one forward_of tokens.old) result tokens.new }
{
    if !tokens.is_at(b"forward") {
        return Err(Stop::At);
    }
    tokens.skip();
    Ok(())
}

// Nothing fails here, so the body waits at no call.
fn assemble(
    labels: Option<Boxed<Decl>>,
    consts: Items<Decl>,
    types: Items<Decl>,
    vars: Items<Decl>,
    routines: Items<Routine>,
    body: StmtKind,
) -> Block
    ensures { result ≡ make_block labels consts types vars routines body }
{
    let labels = match labels {
        None => None,
        Some(decl) => Some(decl.into_inner()),
    };
    Block {
        labels,
        consts,
        types,
        vars,
        routines,
        body: Stmt {
            name: Name(0),
            label: None,
            kind: body,
        },
    }
}

/// A block in which so many levels nest.
#[cycle(blocks)]
#[tactic(auto, unfolding(crate::specs::Readers::block_in, crate::specs::Readers::block))]
pub fn block<B: ReadsBodies>(
    alloc: Global,
    tokens: &mut Cursor<'_>,
    depth: usize,
) -> Result<Block, Stop>
    ensures { Reads (spec.block_in B.body_in depth tokens.old) result tokens.new }
{
    // Memory holds no more levels than a word counts.
    let Some(level) = depth.checked_add(1) else {
        return Err(Stop::Memory);
    };
    let labels = labels_part(alloc, tokens)?;
    let consts = decls_part(alloc, tokens, Part::Consts, level)?;
    let types = decls_part(alloc, tokens, Part::Types, level)?;
    let vars = decls_part(alloc, tokens, Part::Vars, level)?;
    let routines = routines::<B>(alloc, tokens, depth)?;
    let body = B::body(alloc, tokens, depth)?;
    Ok(assemble(labels, consts, types, vars, routines, body))
}

// A routine is in the list before its semicolon is read, so none waits by itself.
#[cycle(blocks)]
#[tactic(auto, using(token_reader::proofs::Turns::many_step, token_reader::proofs::Turns::many_stop), unfolding(crate::specs::Readers::ended_routine))]
fn routines<B: ReadsBodies>(
    alloc: Global,
    tokens: &mut Cursor<'_>,
    depth: usize,
) -> Result<Items<Routine>, Stop>
    ensures { Reads (many spec.routine_first (spec.ended_routine (spec.routine_in B.body_in depth))
        [] tokens.old) result tokens.new }
{
    let mut found = Items::new(alloc);
    for _turn in 0..tokens.len() {
        match tokens.class() {
            PROCEDURE | FUNCTION => {
                found.push(routine::<B>(alloc, tokens, depth)?)?;
                tokens.expect(SEMICOLON)?;
            }
            _ => return Ok(found),
        }
    }
    Ok(found)
}

#[cycle(blocks)]
#[tactic(auto, unfolding(crate::specs::Readers::routine_rest))]
fn routine_rest<B: ReadsBodies>(
    alloc: Global,
    tokens: &mut Cursor<'_>,
    depth: usize,
    heading: Heading,
) -> Result<Routine, Stop>
    ensures { Reads (spec.routine_rest (spec.block_in B.body_in depth) heading tokens.old) result tokens.new }
{
    let block = match tokens.class() {
        IDENT => {
            forward(tokens)?;
            None
        }
        _ => Some(block::<B>(alloc, tokens, depth)?),
    };
    Ok(Routine {
        name: Name(0),
        heading,
        block,
    })
}

/// A procedure or a function of at most so many levels (ISO 7185:1990, 6.6.1, 6.6.2), without names yet.
#[cycle(blocks)]
#[tactic(auto, using(crate::proofs::Further::routine_none, crate::proofs::Further::routine_some), unfolding(crate::specs::Readers::whole_routine))]
pub fn routine<B: ReadsBodies>(
    alloc: Global,
    tokens: &mut Cursor<'_>,
    depth: usize,
) -> Result<Routine, Stop>
    ensures { Reads (spec.routine_in B.body_in depth tokens.old) result tokens.new }
{
    if depth == 0 {
        return Err(Stop::Deep);
    }
    let heading = heading(alloc, tokens)?;
    tokens.expect(SEMICOLON)?;
    routine_rest::<B>(alloc, tokens, depth - 1, heading)
}
