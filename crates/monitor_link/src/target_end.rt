//! The target's end of a link.
ghost use Rattle.std.specs.Prelude.{◌≡◌, ◌+◌, ◌-◌, ◌^◌, ◌<◌, IfOk, Some};
ghost use Rattle.target_monitor.specs.Served.{HasForm};
ghost use Rattle.link_frames.specs.Frames.{IsReadReply, answer_frame};
ghost use Rattle.monitor_link.specs.declared.link.Heard.TheVariants.{Silence};
ghost use Rattle.monitor_link.specs.Target.{fresh_end, target_after, reply_to, executed, delivered, given, taken_frame, kept_answer};
ghost use Rattle.monitor_link.specs.Exchange.{answer_heard};

use crate::link::Heard;
use dice_base::NoMemory;
use link_frames::{FrameBuf, read_request, write_answer};
use std::alloc::Global;
use std::marker::Model;
use target_monitor::{Reply, Request, Target};

/// The target behind its end of a link: it keeps the number of the last request, and the reply to it.
#[derive(Drop)]
pub struct TargetEnd {
    target: Target,
    last: u64,
    kept: Reply,
}

impl Model for TargetEnd {
    ghost use Rattle.monitor_link.specs.Target.{EndState};
    ghost use Rattle.link_frames.specs.Frames.{IsReadReply};

    ghost Value = { EndState };

    ghost view = { λ t. record { target = t.target; last = t.last; kept = t.kept } };

    ghost invariant = { λ t. IsReadReply t.kept };
}

impl TargetEnd {
    /// A target that was asked nothing yet.
    pub fn new(alloc: Global) -> Result<TargetEnd, NoMemory>
        ensures { IfOk result (λ end. end ≡ fresh_end) }
    {
        let target = Target::new(alloc)?;
        Ok(TargetEnd {
            target,
            last: 0,
            kept: Reply::Done,
        })
    }

    // The kept reply is read back from its frame.
    pub(crate) fn kept_reads(&self)
        ensures { IsReadReply self.now.kept }
    {
        // Brings the invariant of the end into reach of the proof.
        let _last = self.last;
    }

    /// Takes any bytes. A whole frame with the last number plus one is executed, and its answer is kept; one with the last
    /// number gets the kept answer again. To all else the end is silent: nothing changes, nor does `got`. Takes no memory.
    pub fn deliver(&mut self, frame: &[u8], got: &mut FrameBuf) -> Heard
        ensures target { self.new ≡ delivered self.old frame.now }
        ensures heard { answer_heard result got.new ≡ given self.old frame.now }
        ensures silent { result ≡ Silence → got.new ≡ got.old }
    {
        match read_request(frame) {
            None => Heard::Silence,
            Some(asked) => self.take(asked.number, &asked.request, got),
        }
    }

    // Takes a whole frame.
    fn take(&mut self, number: u64, request: &Request, got: &mut FrameBuf) -> Heard
        requires form { HasForm request.now }
        ensures target { self.new ≡ taken_frame self.old (Some (record { number = number; request = request.now })) }
        ensures heard { answer_heard result got.new ≡ kept_answer self.new (Some (record { number = number; request = request.now })) }
        ensures silent { result ≡ Silence → got.new ≡ got.old }
    {
        if number > self.last && number - self.last == 1 {
            self.execute(request, got);
            Heard::Answer
        } else if number == self.last {
            write_answer(self.last, &self.kept, got);
            Heard::Answer
        } else {
            Heard::Silence
        }
    }

    // Executes a request under the next number, keeps its reply and writes its answer.
    #[tactic(auto, unfolding(crate::specs::Target::target_after, crate::specs::Target::reply_to))]
    fn execute(&mut self, request: &Request, got: &mut FrameBuf)
        requires form { HasForm request.now }
        requires room { self.old.last < 2 ^ 64 - 1 }
        ensures target { self.new ≡ executed self.old request.now }
        ensures answer { got.new ≡ answer_frame (record { number = self.new.last; reply = self.new.kept }) }
    {
        self.target.answer(request, &mut self.kept);
        self.last += 1;
        write_answer(self.last, &self.kept, got);
    }
}
