//! What every crate of dice11 speaks of: names, link words, texts, tokens, and where bytes come from and go to.
#![tactic(auto)]

mod byte;
mod count;
mod decimal;
mod fault;
mod link;
mod memory;
mod name;
mod outside;
mod standard;
mod symbols;
mod text;
mod token;
mod whole;

pub use byte::{ByteClass, byte_class};
pub use count::one_more;
pub use decimal::push_decimal;
pub use fault::{Failed, NoMemory};
pub use link::{LinkTo, LinkWord};
pub use memory::{MemSink, MemSource};
pub use name::{Name, Span};
pub use outside::{Sink, Source};
pub use standard::{StdSink, StdSource};
pub use symbols::{SIGNS, WORD_SYMBOLS, signs, words};
pub use text::Text;
pub use token::{Token, TokenKind};
pub use whole::write_all;
