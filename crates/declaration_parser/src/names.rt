//! Identifiers.
ghost use Rattle.token_reader.specs.Readers.{Reads};
ghost use Rattle.declaration_parser.specs.Readers as spec;

use dice_base::Text;
use sqlite_items::Items;
use std::alloc::Global;
use token_reader::classes::COMMA;
use token_reader::{Cursor, Stop};

/// Identifiers with commas between.
#[tactic(auto, using(token_reader::proofs::Turns::many_step, token_reader::proofs::Turns::many_stop), unfolding(token_reader::specs::Readers::separated, crate::specs::Readers::idents))]
pub fn idents(alloc: Global, tokens: &mut Cursor<'_>) -> Result<Items<Text>, Stop>
    ensures { Reads (spec.idents tokens.old) result tokens.new }
{
    let mut found = Items::new(alloc);
    found.push(tokens.ident(alloc)?)?;
    for _turn in 0..tokens.len() {
        match tokens.class() {
            COMMA => {
                tokens.expect(COMMA)?;
                found.push(tokens.ident(alloc)?)?;
            }
            _ => return Ok(found),
        }
    }
    Ok(found)
}
