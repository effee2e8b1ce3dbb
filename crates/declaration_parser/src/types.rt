//! Types.
ghost use Rattle.std.specs.Prelude.{[], ◌∷◌};
ghost use Rattle.pascal_tree.specs.Classes.{comma_class, semicolon_class, ident_class};
ghost use Rattle.token_reader.specs.Readers.{Reads, separated, ended};
ghost use Rattle.declaration_parser.specs.Readers as spec;
ghost use Rattle.declaration_parser.specs.NestsTypes.{NestsTypes};

use crate::consts::{constant, literal};
use crate::names::idents;
use pascal_tree::{Constant, FieldText, Prefix, TypeText};
use sqlite_items::{Boxed, Items};
use std::alloc::Global;
use token_reader::classes::{
    ARRAY, ARROW, CLOSE, COLON, COMMA, END, IDENT, LEFT, OF, OPEN, PACKED, RANGE, RECORD, RIGHT,
    SEMICOLON, SET,
};
use token_reader::{Cursor, Stop};

/// What follows `(`.
#[tactic(auto, unfolding(crate::specs::Readers::enumeration))]
fn enumeration(alloc: Global, tokens: &mut Cursor<'_>) -> Result<TypeText, Stop>
    ensures { Reads (spec.enumeration tokens.old) result tokens.new }
{
    let names = idents(alloc, tokens)?;
    tokens.expect(CLOSE)?;
    Ok(TypeText::Enumeration(names))
}

#[tactic(auto, unfolding(crate::specs::Readers::range_from))]
fn range_from(alloc: Global, tokens: &mut Cursor<'_>, first: Constant) -> Result<TypeText, Stop>
    ensures { Reads (spec.range_from first tokens.old) result tokens.new }
{
    tokens.expect(RANGE)?;
    let last = constant(alloc, tokens)?;
    Ok(TypeText::Range(first, last))
}

#[tactic(auto, unfolding(crate::specs::Readers::by_ident))]
fn by_ident(alloc: Global, tokens: &mut Cursor<'_>) -> Result<TypeText, Stop>
    ensures { Reads (spec.by_ident tokens.old) result tokens.new }
{
    let ident = tokens.ident(alloc)?;
    match tokens.class() {
        RANGE => range_from(alloc, tokens, Constant::Named(Prefix::Without, ident)),
        _ => Ok(TypeText::Named(ident)),
    }
}

#[tactic(auto, unfolding(crate::specs::Readers::subrange))]
fn subrange(alloc: Global, tokens: &mut Cursor<'_>) -> Result<TypeText, Stop>
    ensures { Reads (spec.subrange tokens.old) result tokens.new }
{
    let first = literal(alloc, tokens)?;
    range_from(alloc, tokens, first)
}

#[tactic(auto, unfolding(crate::specs::Readers::simple))]
fn simple(alloc: Global, tokens: &mut Cursor<'_>) -> Result<TypeText, Stop>
    ensures { Reads (spec.simple tokens.old) result tokens.new }
{
    match tokens.class() {
        OPEN => {
            tokens.expect(OPEN)?;
            enumeration(alloc, tokens)
        }
        IDENT => by_ident(alloc, tokens),
        _ => subrange(alloc, tokens),
    }
}

#[tactic(auto, using(crate::proofs::Further::simple_none, crate::proofs::Further::simple_some))]
fn simple_in(alloc: Global, tokens: &mut Cursor<'_>, depth: usize) -> Result<TypeText, Stop>
    ensures { Reads (spec.simple_in depth tokens.old) result tokens.new }
{
    if depth == 0 {
        return Err(Stop::Deep);
    }
    simple(alloc, tokens)
}

#[tactic(auto, using(token_reader::proofs::Turns::many_step, token_reader::proofs::Turns::many_stop), unfolding(token_reader::specs::Readers::separated))]
fn indexes(alloc: Global, tokens: &mut Cursor<'_>, depth: usize) -> Result<Items<TypeText>, Stop>
    ensures { Reads (separated comma_class (spec.simple_in depth) tokens.old) result tokens.new }
{
    let mut found = Items::new(alloc);
    found.push(simple_in(alloc, tokens, depth)?)?;
    for _turn in 0..tokens.len() {
        match tokens.class() {
            COMMA => {
                tokens.expect(COMMA)?;
                found.push(simple_in(alloc, tokens, depth)?)?;
            }
            _ => return Ok(found),
        }
    }
    Ok(found)
}

/// What follows `set`.
#[tactic(auto, unfolding(crate::specs::Readers::set_rest))]
fn set_rest(
    alloc: Global,
    tokens: &mut Cursor<'_>,
    depth: usize,
    packed: bool,
) -> Result<TypeText, Stop>
    ensures { Reads (spec.set_rest (spec.simple_in depth) (spec.type_in depth) packed tokens.old) result tokens.new }
{
    tokens.expect(OF)?;
    let base = simple_in(alloc, tokens, depth)?;
    Ok(TypeText::SetOf(packed, Boxed::new(alloc, base)?))
}

/// The rules over a reader of the types one level further in.
#[derive(Clone, Copy)]
pub struct Types<F> {
    alloc: Global,
    inner: F,
}

impl<F: Fn(Global, &mut Cursor<'_>, usize) -> Result<TypeText, Stop>> Types<F> {
    /// What follows `array`.
    #[tactic(auto, unfolding(crate::specs::Readers::array_rest))]
    fn array_rest(
        &self,
        tokens: &mut Cursor<'_>,
        depth: usize,
        packed: bool,
    ) -> Result<TypeText, Stop>
        requires { NestsTypes depth (F.pre self.now.inner) (F.post self.now.inner) }
        ensures { Reads (spec.array_rest (spec.simple_in depth) (spec.type_in depth)
            packed tokens.old) result tokens.new }
    {
        tokens.expect(LEFT)?;
        let indexes = indexes(self.alloc, tokens, depth)?;
        tokens.expect(RIGHT)?;
        tokens.expect(OF)?;
        let component = (self.inner)(self.alloc, tokens, depth)?;
        Ok(TypeText::Array(packed, indexes, Boxed::new(self.alloc, component)?))
    }

    #[tactic(auto, unfolding(crate::specs::Readers::field))]
    fn field(&self, tokens: &mut Cursor<'_>, depth: usize) -> Result<FieldText, Stop>
        requires { NestsTypes depth (F.pre self.now.inner) (F.post self.now.inner) }
        ensures { Reads (spec.field (spec.simple_in depth) (spec.type_in depth) tokens.old) result tokens.new }
    {
        let idents = idents(self.alloc, tokens)?;
        tokens.expect(COLON)?;
        let shape = (self.inner)(self.alloc, tokens, depth)?;
        Ok(FieldText { idents, shape })
    }

    #[tactic(auto, using(token_reader::proofs::Turns::ended_step, token_reader::proofs::Turns::ended_stop))]
    fn fields(&self, tokens: &mut Cursor<'_>, depth: usize) -> Result<Items<FieldText>, Stop>
        requires { NestsTypes depth (F.pre self.now.inner) (F.post self.now.inner) }
        ensures { Reads (ended semicolon_class (ident_class ∷ [])
            (spec.field (spec.simple_in depth) (spec.type_in depth)) tokens.old) result tokens.new }
    {
        let mut found = Items::new(self.alloc);
        found.push(self.field(tokens, depth)?)?;
        for _turn in 0..tokens.len() {
            match tokens.class() {
                SEMICOLON => {
                    tokens.expect(SEMICOLON)?;
                    if tokens.class() != IDENT {
                        return Ok(found);
                    }
                    found.push(self.field(tokens, depth)?)?;
                }
                _ => return Ok(found),
            }
        }
        Ok(found)
    }

    /// What follows `record`.
    #[tactic(auto, unfolding(crate::specs::Readers::record_rest))]
    fn record_rest(
        &self,
        tokens: &mut Cursor<'_>,
        depth: usize,
        packed: bool,
    ) -> Result<TypeText, Stop>
        requires { NestsTypes depth (F.pre self.now.inner) (F.post self.now.inner) }
        ensures { Reads (spec.record_rest (spec.simple_in depth) (spec.type_in depth)
            packed tokens.old) result tokens.new }
    {
        match tokens.class() {
            END => {
                tokens.expect(END)?;
                Ok(TypeText::RecordOf(packed, Items::new(self.alloc)))
            }
            _ => {
                let fields = self.fields(tokens, depth)?;
                tokens.expect(END)?;
                Ok(TypeText::RecordOf(packed, fields))
            }
        }
    }

    #[tactic(auto, unfolding(crate::specs::Readers::structured))]
    fn structured(
        &self,
        tokens: &mut Cursor<'_>,
        depth: usize,
        packed: bool,
    ) -> Result<TypeText, Stop>
        requires { NestsTypes depth (F.pre self.now.inner) (F.post self.now.inner) }
        ensures { Reads (spec.structured (spec.simple_in depth) (spec.type_in depth)
            packed tokens.old) result tokens.new }
    {
        match tokens.class() {
            ARRAY => {
                tokens.expect(ARRAY)?;
                self.array_rest(tokens, depth, packed)
            }
            SET => {
                tokens.expect(SET)?;
                set_rest(self.alloc, tokens, depth, packed)
            }
            _ => {
                tokens.expect(RECORD)?;
                self.record_rest(tokens, depth, packed)
            }
        }
    }

    #[tactic(auto, unfolding(crate::specs::Readers::whole_type))]
    fn whole(&self, tokens: &mut Cursor<'_>, depth: usize) -> Result<TypeText, Stop>
        requires { NestsTypes depth (F.pre self.now.inner) (F.post self.now.inner) }
        ensures { Reads (spec.whole_type (spec.simple_in depth) (spec.type_in depth) tokens.old) result tokens.new }
    {
        match tokens.class() {
            ARROW => {
                tokens.expect(ARROW)?;
                Ok(TypeText::Pointer(tokens.ident(self.alloc)?))
            }
            PACKED => {
                tokens.expect(PACKED)?;
                self.structured(tokens, depth, true)
            }
            ARRAY | SET | RECORD => self.structured(tokens, depth, false),
            _ => simple(self.alloc, tokens),
        }
    }
}

/// A type that takes one of so many levels itself (ISO 7185:1990, 6.4).
#[tactic(auto, using(crate::proofs::Further::type_none, crate::proofs::Further::type_some))]
pub fn declared_type(alloc: Global, tokens: &mut Cursor<'_>, depth: usize) -> Result<TypeText, Stop>
    ensures { Reads (spec.type_in depth tokens.old) result tokens.new }
{
    if depth == 0 {
        return Err(Stop::Deep);
    }
    let rules = Types {
        alloc,
        inner: declared_type,
    };
    rules.whole(tokens, depth - 1)
}
