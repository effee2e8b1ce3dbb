//! Programs of the whole profile, as texts, and what their check says: each kind of fault, sizes at their limits, and
//! which of several faults is told.
#![tactic(auto)]

#[cfg(test)]
mod names;
#[cfg(test)]
mod outcome;
#[cfg(test)]
mod programs;
#[cfg(test)]
mod statements;
#[cfg(test)]
mod types;
