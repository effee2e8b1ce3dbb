//! Constants.
ghost use Rattle.pascal_tree.specs.Classes.{comma_class};
ghost use Rattle.pascal_tree.specs.Expressions.{signs};
ghost use Rattle.dice_base.specs.Tokens.{operator_of};
ghost use Rattle.token_reader.specs.Readers.{Reads, one, separated};
ghost use Rattle.declaration_parser.specs.Readers as spec;

use pascal_tree::{Constant, Prefix};
use sqlite_items::Items;
use std::alloc::Global;
use token_reader::classes::{COMMA, IDENT, MINUS, NUMBER, PLUS, STRING};
use token_reader::{Cursor, Stop};

#[tactic(auto, using(token_reader::proofs::Turns::table_some, token_reader::proofs::Turns::table_none))]
fn sign(tokens: &mut Cursor<'_>) -> Result<Prefix, Stop>
    ensures { Reads (one (operator_of signs) tokens.old) result tokens.new }
{
    let sign = match tokens.class() {
        PLUS => Prefix::Plus,
        MINUS => Prefix::Minus,
        _ => return Err(Stop::At),
    };
    tokens.skip();
    Ok(sign)
}

#[tactic(auto, unfolding(crate::specs::Readers::signed))]
fn signed(alloc: Global, tokens: &mut Cursor<'_>, sign: Prefix) -> Result<Constant, Stop>
    ensures { Reads (spec.signed sign tokens.old) result tokens.new }
{
    match tokens.class() {
        NUMBER => Ok(Constant::Number(sign, tokens.number()?)),
        _ => Ok(Constant::Named(sign, tokens.ident(alloc)?)),
    }
}

/// A constant that does not begin with an identifier.
#[tactic(auto, unfolding(crate::specs::Readers::literal))]
pub fn literal(alloc: Global, tokens: &mut Cursor<'_>) -> Result<Constant, Stop>
    ensures { Reads (spec.literal tokens.old) result tokens.new }
{
    match tokens.class() {
        STRING => Ok(Constant::Str(tokens.string(alloc)?)),
        NUMBER => Ok(Constant::Number(Prefix::Without, tokens.number()?)),
        _ => {
            let sign = sign(tokens)?;
            signed(alloc, tokens, sign)
        }
    }
}

/// A constant (ISO 7185:1990, 6.3).
#[tactic(auto, unfolding(crate::specs::Readers::constant))]
pub fn constant(alloc: Global, tokens: &mut Cursor<'_>) -> Result<Constant, Stop>
    ensures { Reads (spec.constant tokens.old) result tokens.new }
{
    match tokens.class() {
        IDENT => Ok(Constant::Named(Prefix::Without, tokens.ident(alloc)?)),
        _ => literal(alloc, tokens),
    }
}

/// Constants with commas between.
#[tactic(auto, using(token_reader::proofs::Turns::many_step, token_reader::proofs::Turns::many_stop), unfolding(token_reader::specs::Readers::separated))]
pub fn constants(alloc: Global, tokens: &mut Cursor<'_>) -> Result<Items<Constant>, Stop>
    ensures { Reads (separated comma_class spec.constant tokens.old) result tokens.new }
{
    let mut found = Items::new(alloc);
    found.push(constant(alloc, tokens)?)?;
    for _turn in 0..tokens.len() {
        match tokens.class() {
            COMMA => {
                tokens.expect(COMMA)?;
                found.push(constant(alloc, tokens)?)?;
            }
            _ => return Ok(found),
        }
    }
    Ok(found)
}
