//! Headings of procedures and functions.
ghost use Rattle.pascal_tree.specs.Classes.{semicolon_class};
ghost use Rattle.token_reader.specs.Readers.{Reads, separated};
ghost use Rattle.declaration_parser.specs.Readers as spec;

use crate::names::idents;
use pascal_tree::{Heading, Section};
use sqlite_items::Items;
use std::alloc::Global;
use token_reader::classes::{CLOSE, COLON, FUNCTION, OPEN, PROCEDURE, SEMICOLON, VAR};
use token_reader::{Cursor, Stop};

#[tactic(auto, unfolding(crate::specs::Readers::section_rest))]
fn section_rest(alloc: Global, tokens: &mut Cursor<'_>, by_place: bool) -> Result<Section, Stop>
    ensures { Reads (spec.section_rest by_place tokens.old) result tokens.new }
{
    let idents = idents(alloc, tokens)?;
    tokens.expect(COLON)?;
    let shape = tokens.ident(alloc)?;
    Ok(Section {
        by_place,
        idents,
        shape,
    })
}

#[tactic(auto, unfolding(crate::specs::Readers::section))]
fn section(alloc: Global, tokens: &mut Cursor<'_>) -> Result<Section, Stop>
    ensures { Reads (spec.section tokens.old) result tokens.new }
{
    match tokens.class() {
        VAR => {
            tokens.expect(VAR)?;
            section_rest(alloc, tokens, true)
        }
        _ => section_rest(alloc, tokens, false),
    }
}

#[tactic(auto, using(token_reader::proofs::Turns::many_step, token_reader::proofs::Turns::many_stop), unfolding(token_reader::specs::Readers::separated))]
fn sections(alloc: Global, tokens: &mut Cursor<'_>) -> Result<Items<Section>, Stop>
    ensures { Reads (separated semicolon_class spec.section tokens.old) result tokens.new }
{
    let mut found = Items::new(alloc);
    found.push(section(alloc, tokens)?)?;
    for _turn in 0..tokens.len() {
        match tokens.class() {
            SEMICOLON => {
                tokens.expect(SEMICOLON)?;
                found.push(section(alloc, tokens)?)?;
            }
            _ => return Ok(found),
        }
    }
    Ok(found)
}

#[tactic(auto, unfolding(crate::specs::Readers::params, crate::specs::Readers::params_rest))]
fn params(alloc: Global, tokens: &mut Cursor<'_>) -> Result<Items<Section>, Stop>
    ensures { Reads (spec.params tokens.old) result tokens.new }
{
    match tokens.class() {
        OPEN => {
            tokens.expect(OPEN)?;
            let sections = sections(alloc, tokens)?;
            tokens.expect(CLOSE)?;
            Ok(sections)
        }
        _ => Ok(Items::new(alloc)),
    }
}

/// What follows `procedure`.
#[tactic(auto, unfolding(crate::specs::Readers::procedure_rest))]
fn procedure_rest(alloc: Global, tokens: &mut Cursor<'_>) -> Result<Heading, Stop>
    ensures { Reads (spec.procedure_rest tokens.old) result tokens.new }
{
    let ident = tokens.ident(alloc)?;
    let sections = params(alloc, tokens)?;
    Ok(Heading {
        function: false,
        ident,
        sections,
        result: None,
    })
}

/// What follows `function`.
#[tactic(auto, unfolding(crate::specs::Readers::function_rest))]
fn function_rest(alloc: Global, tokens: &mut Cursor<'_>) -> Result<Heading, Stop>
    ensures { Reads (spec.function_rest tokens.old) result tokens.new }
{
    let ident = tokens.ident(alloc)?;
    match tokens.class() {
        OPEN | COLON => {
            let sections = params(alloc, tokens)?;
            tokens.expect(COLON)?;
            let result = tokens.ident(alloc)?;
            Ok(Heading {
                function: true,
                ident,
                sections,
                result: Some(result),
            })
        }
        _ => Ok(Heading {
            function: true,
            ident,
            sections: Items::new(alloc),
            result: None,
        }),
    }
}

/// The heading of a procedure or a function (ISO 7185:1990, 6.6.1, 6.6.2).
#[tactic(auto, unfolding(crate::specs::Readers::heading))]
pub fn heading(alloc: Global, tokens: &mut Cursor<'_>) -> Result<Heading, Stop>
    ensures { Reads (spec.heading tokens.old) result tokens.new }
{
    match tokens.class() {
        PROCEDURE => {
            tokens.expect(PROCEDURE)?;
            procedure_rest(alloc, tokens)
        }
        _ => {
            tokens.expect(FUNCTION)?;
            function_rest(alloc, tokens)
        }
    }
}
