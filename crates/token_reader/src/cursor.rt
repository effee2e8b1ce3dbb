//! The tokens that are left.
ghost use Rattle.std.specs.Prelude.{◌≡◌, length, map, drop};
ghost use Rattle.dice_base.specs.Tokens.{class_at};
ghost use Rattle.token_reader.specs.Readers as spec;
ghost use Rattle.token_reader.specs.Readers.{Reads, is_ident};

use crate::Stop;
use crate::classes::{END_OF_TOKENS, class};
use dice_base::{Text, Token, TokenKind};
use std::alloc::Global;
use std::marker::Model;

/// The tokens that are left.
#[derive(Drop)]
pub struct Cursor<'a> {
    rest: &'a [Token],
}

impl<'a> Model for Cursor<'a> {
    ghost use Rattle.std.specs.Prelude.{map};
    ghost use Rattle.dice_base.specs.Tokens.{Toks};

    ghost Value = { Toks };

    ghost view = { λ c. map (λ t. t.kind) c.rest.now };
}

impl<'a> Cursor<'a> {
    /// All these tokens.
    pub fn new(tokens: &'a [Token]) -> Cursor<'a>
        ensures { result ≡ map (λ t. t.kind) tokens.now }
    {
        Cursor { rest: tokens }
    }

    /// The class of the next token, or that of the end.
    pub fn class(&self) -> u16
        ensures { result ≡ class_at self.now }
    {
        match self.rest {
            [] => END_OF_TOKENS,
            [token, ..] => class(&token.kind),
        }
    }

    /// Whether the next token is this identifier.
    pub fn is_at(&self, ident: &[u8]) -> bool
        ensures { result ≡ is_ident ident.now self.now }
    {
        match self.rest {
            [] => false,
            [token, ..] => match &token.kind {
                TokenKind::Ident(x) => x.bytes() == ident,
                _ => false,
            },
        }
    }

    /// How many tokens are left.
    pub fn len(&self) -> usize
        ensures { result ≡ length self.now }
    {
        self.rest.len()
    }

    /// Passes a token.
    pub fn skip(&mut self)
        ensures { self.new ≡ drop 1 self.old }
    {
        if let [_, rest @ ..] = self.rest {
            self.rest = rest;
        }
    }

    /// Takes a token of this class.
    #[tactic(auto, unfolding(crate::specs::Readers::expect))]
    pub fn expect(&mut self, wanted: u16) -> Result<(), Stop>
        ensures { Reads (spec.expect wanted self.old) result self.new }
    {
        let [token, rest @ ..] = self.rest else {
            return Err(Stop::At);
        };
        if class(&token.kind) != wanted {
            return Err(Stop::At);
        }
        self.rest = rest;
        Ok(())
    }

    /// Takes an identifier.
    #[tactic(auto, unfolding(crate::specs::Readers::ident))]
    pub fn ident(&mut self, alloc: Global) -> Result<Text, Stop>
        ensures { Reads (spec.ident self.old) result self.new }
    {
        let [token, rest @ ..] = self.rest else {
            return Err(Stop::At);
        };
        let TokenKind::Ident(x) = &token.kind else {
            return Err(Stop::At);
        };
        let ident = x.copy(alloc)?;
        self.rest = rest;
        Ok(ident)
    }

    /// Takes a character string, without its quotes.
    #[tactic(auto, unfolding(crate::specs::Readers::string))]
    pub fn string(&mut self, alloc: Global) -> Result<Text, Stop>
        ensures { Reads (spec.string self.old) result self.new }
    {
        let [token, rest @ ..] = self.rest else {
            return Err(Stop::At);
        };
        let TokenKind::Str(x) = &token.kind else {
            return Err(Stop::At);
        };
        let string = x.copy(alloc)?;
        self.rest = rest;
        Ok(string)
    }

    /// Takes a number.
    #[tactic(auto, unfolding(crate::specs::Readers::number))]
    pub fn number(&mut self) -> Result<u16, Stop>
        ensures { Reads (spec.number self.old) result self.new }
    {
        let [token, rest @ ..] = self.rest else {
            return Err(Stop::At);
        };
        let TokenKind::Number(n) = token.kind else {
            return Err(Stop::At);
        };
        self.rest = rest;
        Ok(n)
    }
}
