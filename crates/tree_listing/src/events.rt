//! Events in a row.
ghost use Rattle.std.specs.Prelude.{◌≡◌, [], ◌∷◌, ◌++◌, OnOk, MatchOption};
ghost use Rattle.tree_listing.specs.Events.{said};

use crate::event::Event;
use dice_base::{NoMemory, TokenKind};
use std::alloc::Global;
use std::collections::VecDeque;
use std::marker::Model;

/// Events, the first to come first. Contracts see their list.
#[derive(Drop)]
pub struct Events {
    queue: VecDeque<Event>,
}

impl Model for Events {
    ghost use Rattle.std.specs.Prelude.{List};
    ghost use Rattle.tree_listing.specs.declared.event.Event.{Event};

    ghost Value = { List Event };

    ghost view = { λ e. e.queue.items };
}

impl Events {
    /// None yet.
    pub fn new(alloc: Global) -> Events
        ensures { result ≡ [] }
    {
        Events {
            queue: VecDeque::new(alloc),
        }
    }

    /// Adds an event.
    pub fn push(&mut self, event: Event) -> Result<(), NoMemory>
        ensures { OnOk result (self.new ≡ self.old ++ event ∷ []) }
    {
        self.queue.push_back(event)?;
        Ok(())
    }

    /// Adds a token.
    pub fn push_token(&mut self, token: TokenKind) -> Result<(), NoMemory>
        ensures { OnOk result (self.new ≡ self.old ++ Event.Token token ∷ []) }
    {
        self.push(Event::Token(token))
    }

    /// Adds tokens.
    pub fn push_tokens(&mut self, tokens: Vec<TokenKind>) -> Result<(), NoMemory>
        ensures { OnOk result (self.new ≡ self.old ++ said tokens.items) }
    {
        for token in tokens {
            self.push_token(token)?;
        }
        Ok(())
    }

    /// Takes the first event.
    pub fn pop(&mut self) -> Option<Event>
        ensures { MatchOption result ((self.old ≡ []) × (self.new ≡ [])) (λ e. self.old ≡ e ∷ self.new) }
    {
        self.queue.pop_front()
    }
}
