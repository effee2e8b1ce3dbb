//! Which words and which expressions a text can spell.
//!
//! `Gives` and `Spells` in `proofs/` have one lemma for each way in which forms are made; `Layers` says what a tree has by what
//! its parts have.
#![tactic(auto)]
