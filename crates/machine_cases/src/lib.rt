//! Cases of the machine and of what stands on it: single steps, compared with what another model of the PDP-11/40 makes
//! of them; traps that are taken; first words; the console and Go; the words of blocks and of a load.
#![tactic(auto)]

#[cfg(test)]
mod blocks;
#[cfg(test)]
mod monitor;
#[cfg(test)]
mod steps;
#[cfg(test)]
mod target;
#[cfg(test)]
mod traps;
#[cfg(test)]
mod words;
