//! What a link is, to the host.
ghost use Rattle.std.specs.Prelude.{◌≡◌, ◌≤◌, ◌↔◌, List, ℕ, length, IsTrue, OnOk, OnErr};
ghost use Rattle.link_frames.specs.declared.frame_buf.TheConstants.{MAX_FRAME_BYTES};
ghost use Rattle.monitor_link.specs.declared.link.Fate.{Fate};
ghost use Rattle.monitor_link.specs.declared.link.TheConstants.{KEPT_FRAMES};
ghost use Rattle.monitor_link.specs.Target.{EndState};
ghost use Rattle.monitor_link.specs.Exchange.{answer_heard, frames_with, Exchanged, IsFresh};

use dice_base::NoMemory;
use link_frames::FrameBuf;
use std::alloc::Global;

/// How many frames and answers a link tells, and how many may still come: this one and the eight before it.
pub const KEPT_FRAMES: usize = 9;

/// What the host hears in an exchange.
#[derive(Clone, Copy, PartialEq, Eq)]
pub enum Heard {
    /// An answer, whose bytes are given.
    Answer,
    /// Nothing.
    Silence,
}

/// What becomes of an exchange.
#[derive(Clone, Copy, PartialEq, Eq)]
pub enum Fate {
    /// The frame is delivered, and its answer comes back.
    Pass,
    /// Nothing is delivered, and nothing comes back.
    RequestLost,
    /// The frame is delivered, and nothing comes back.
    AnswerLost,
    /// The frame is delivered twice, and the second answer comes back.
    Twice,
    /// The frame of the exchange before is delivered, and then this one; the first answer comes back.
    Stale,
}

/// A link to a target.
pub trait Link {
    /// The target's end.
    ghost target: { Self → EndState };

    /// The last nine frames, the newest first.
    ghost frames: { Self → List (List ℕ) };

    /// The last nine answers.
    ghost answers: { Self → List (List ℕ) };

    /// The fates that were last scheduled, or none.
    ghost scheduled: { Self → List Fate };

    /// How often the link has failed: a count that never falls.
    ghost faults: { Self → ℕ };

    /// Sends a frame of at most 1,036 bytes, and hears an answer or nothing. Takes no memory.
    fn exchange(&mut self, frame: &[u8], got: &mut FrameBuf) -> Heard
        requires { length frame.now ≤ MAX_FRAME_BYTES }
        ensures frames { frames self.new ≡ frames_with frame.now (frames self.old) }
        ensures few { length (answers self.new) ≤ KEPT_FRAMES }
        ensures scheduled { scheduled self.new ≡ scheduled self.old }
        ensures exchanged { Exchanged frame.now (answer_heard result got.new) (target self.old) (target self.new)
            (frames self.old) (answers self.old) (answers self.new) (faults self.old) (faults self.new) };

    /// Tells a fresh link the fates of its exchanges, in place of those that it was told before.
    fn schedule(&mut self, alloc: Global, fates: &[Fate]) -> Result<(), NoMemory>
        requires { IsFresh (target self.old) (frames self.old) (answers self.old) }
        ensures told { OnOk result (scheduled self.new ≡ fates.now) }
        ensures kept { OnErr result (scheduled self.new ≡ scheduled self.old) }
        ensures fresh { IsFresh (target self.new) (frames self.new) (answers self.new) }
        ensures faults { faults self.new ≡ faults self.old };

    /// Whether nothing was asked over this link yet.
    fn fresh(&self) -> bool
        ensures { IsTrue result ↔ IsFresh (target self.now) (frames self.now) (answers self.now) };
}

/// Whether nothing was asked over this link yet: the target is as it was made, and there is no frame or answer.
pub fn link_fresh<L: Link>(link: &L) -> bool
    ensures { IsTrue result ↔ IsFresh (L.target link.now) (L.frames link.now) (L.answers link.now) }
{
    link.fresh()
}
