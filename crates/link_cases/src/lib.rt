//! Cases of the link: the bytes of frames, bytes that are none, each call of its two ends, each fate of an exchange, and
//! random bytes, whose answers are compared with what another model of the monitor gives.
#![tactic(auto)]

#[cfg(test)]
mod calls;
#[cfg(test)]
mod fates;
#[cfg(test)]
mod frames;
#[cfg(test)]
mod random;
