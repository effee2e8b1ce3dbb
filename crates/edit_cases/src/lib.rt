//! Look-ups in a named program, edits of it and its listing, each tried on a small one.
#![tactic(auto)]

#[cfg(test)]
mod cases;
