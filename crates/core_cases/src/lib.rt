//! Every call on resolved programs and their layouts, run once on a program that is put together by hand.
#![tactic(auto)]

#[cfg(test)]
mod build;
#[cfg(test)]
mod cases;
