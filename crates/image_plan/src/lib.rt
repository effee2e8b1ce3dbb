//! Where the blocks of a program go, and the words that are written there.
#![tactic(auto)]

mod lay;
mod load;

pub use load::load_words;
