//! The session over the target: the present program, the draft, and the replies to commands.
#![tactic(auto)]

mod editing;
mod loading;
mod place;
mod progress;
mod reply;
mod running;
mod session;

pub use session::Session;
