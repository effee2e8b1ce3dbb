//! Worked cases of the check of programs: each kind of fault, layouts and sizes, computed from the rules.
//!
//! A case is a program put together from the rules of its forms (`specs/Forms`), beside its text. So a reader can follow
//! each definition on it, and the proof of each case is its computation alone.
#![tactic(auto)]
