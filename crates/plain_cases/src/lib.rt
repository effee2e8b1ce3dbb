//! Runs of programs on the plain Pascal machine, computed from its definitions.
//!
//! Each file of `proofs/` has one program, its text in the head comment, and what its runs come to.
#![tactic(auto)]
