//! Every call on trees, run once: a program with each form of the tree is named, copied and printed.
#![tactic(auto)]

#[cfg(test)]
mod build;
#[cfg(test)]
mod cases;
