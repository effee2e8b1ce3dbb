//! What reads texts, tried on examples: tokens and commands.
#![tactic(auto)]

#[cfg(test)]
mod commands;
#[cfg(test)]
mod parsing;
#[cfg(test)]
mod scanning;
