//! The two ends of a link, over which frames may be lost, repeated or come late.
//!
//! The target's end executes a request once, whatever comes: it takes the number after its last one, repeats its answer to
//! the last one, and is silent to all else. The host's end asks a request up to eight times with one number and takes no
//! answer but that number's. So a request that is answered was executed exactly once, and one that is not, at most once.
#![tactic(auto)]

mod host_end;
mod link;
mod target_end;
mod wire;

pub use host_end::{HostEnd, LinkDown};
pub use link::{Fate, Heard, Link, link_fresh};
pub use link_frames::FrameBuf;
pub use target_end::TargetEnd;
pub use wire::Wire;
