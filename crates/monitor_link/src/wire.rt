//! A link in memory, whose exchanges go by a list of fates.
ghost use Rattle.std.specs.Prelude.{◌≡◌, ◌+◌, ◌-◌, ◌^◌, ◌<◌, ◌≤◌, IfOk, length, slice_get, nat_lt, if◌then◌else◌};
ghost use Rattle.std.specs.Option.{option_to_list};
ghost use Rattle.link_frames.specs.declared.frame_buf.TheConstants.{MAX_FRAME_BYTES};
ghost use Rattle.link_frames.specs.Frames.{IsReadReply};
ghost use Rattle.monitor_link.specs.declared.link.TheConstants.{KEPT_FRAMES};
ghost use Rattle.monitor_link.specs.Target.{delivered, given, all_delivered};
ghost use Rattle.monitor_link.specs.Exchange.{answer_heard, frames_with, Exchanged};
ghost use Rattle.monitor_link.specs.Carried.{fresh_wire, answers_with, answers_after, stale_answer, Carried, listed_fate, is_lost, chosen_fate, fate_of, faults_of, after_fate};

use crate::link::{Fate, Heard, KEPT_FRAMES, Link};
use crate::target_end::TargetEnd;
use circular_buffer::HeapCircularBuffer;
use dice_base::NoMemory;
use link_frames::FrameBuf;
use std::alloc::Global;
use std::marker::Model;

/// A link in memory to a target of its own. Each exchange has one fate of the list; when the list is used up, all pass, but
/// for those that `lose` names. It tells the last nine frames and answers.
#[derive(Drop)]
pub struct Wire {
    target: TargetEnd,
    fates: Vec<Fate>,
    at: usize,
    frames: HeapCircularBuffer<FrameBuf>,
    answers: HeapCircularBuffer<FrameBuf>,
    lose_kind: u8,
    lose_times: u32,
    faults: u64,
}

impl Model for Wire {
    ghost use Rattle.std.specs.Prelude.{◌≡◌, ◌≤◌, [], length};
    ghost use Rattle.monitor_link.specs.declared.link.TheConstants.{KEPT_FRAMES};
    ghost use Rattle.monitor_link.specs.Target.{fresh_end};
    ghost use Rattle.monitor_link.specs.Carried.{WireState, IsBegun};

    ghost Value = { WireState };

    ghost view = { λ w. record {
      target = w.target;
      fates = w.fates.items;
      at = w.at;
      frames = w.frames.items;
      answers = w.answers.items;
      lose_kind = w.lose_kind;
      lose_times = w.lose_times;
      faults = w.faults;
    } };

    ghost invariant = { λ w. (w.frames.capacity ≡ KEPT_FRAMES) × (w.answers.capacity ≡ KEPT_FRAMES)
        × (length w.answers.items ≤ KEPT_FRAMES) × IsBegun w.frames.items w.target w.answers.items };
}

impl Wire {
    /// A link to a fresh target, on which every exchange passes.
    pub fn new(alloc: Global) -> Result<Wire, NoMemory>
        ensures { IfOk result (λ wire. wire ≡ fresh_wire) }
    {
        let target = TargetEnd::new(alloc)?;
        let frames = HeapCircularBuffer::with_capacity(alloc, KEPT_FRAMES)?;
        let answers = HeapCircularBuffer::with_capacity(alloc, KEPT_FRAMES)?;
        Ok(Wire {
            target,
            fates: Vec::new(alloc),
            at: 0,
            frames,
            answers,
            lose_kind: 0,
            lose_times: 0,
            faults: 0,
        })
    }

    /// The next so many exchanges whose frame has that kind in byte 1 are RequestLost, whatever the list of fates says;
    /// each still uses its place in the list. A later call replaces an earlier one. Takes no memory.
    pub fn lose(&mut self, kind: u8, times: u32)
        ensures { self.new ≡ record self.old { lose_kind = kind; lose_times = times } }
    {
        self.lose_kind = kind;
        self.lose_times = times;
    }

    // The fate of an exchange of this frame. Its place in the list is used, and so is a loss; a fault is counted.
    fn next_fate(&mut self, frame: &[u8]) -> Fate
        ensures fate { result ≡ fate_of self.old frame.now }
        ensures wire { self.new ≡ after_fate self.old frame.now }
    {
        let listed = self.listed_fate();
        let lost = self.is_lost(frame);
        let fate = chosen_fate(self.faults, lost, listed);
        self.count(fate);
        fate
    }

    fn listed_fate(&mut self) -> Fate
        ensures fate { result ≡ listed_fate self.old }
        ensures wire { self.new ≡ record self.old { at = if nat_lt self.old.at (length self.old.fates) then self.old.at + 1 else self.old.at } }
    {
        if self.at < self.fates.len() {
            let fate = self.fates[self.at];
            self.at += 1;
            fate
        } else {
            Fate::Pass
        }
    }

    fn is_lost(&mut self, frame: &[u8]) -> bool
        ensures lost { result ≡ is_lost self.old frame.now }
        ensures wire { self.new ≡ record self.old { lose_times = if is_lost self.old frame.now then self.old.lose_times - 1 else self.old.lose_times } }
    {
        if self.lose_times > 0 && frame.len() > 1 && frame[1] == self.lose_kind {
            self.lose_times -= 1;
            true
        } else {
            false
        }
    }

    fn count(&mut self, fate: Fate)
        requires { self.old.faults + faults_of fate < 2 ^ 64 }
        ensures { self.new ≡ record self.old { faults = self.old.faults + faults_of fate } }
    {
        match fate {
            Fate::Pass => {}
            Fate::RequestLost => self.faults += 1,
            Fate::AnswerLost => self.faults += 1,
            Fate::Twice => self.faults += 1,
            Fate::Stale => self.faults += 1,
        }
    }

    fn keep_frame(&mut self, frame: &[u8])
        requires { length frame.now ≤ MAX_FRAME_BYTES }
        ensures { self.new ≡ record self.old { frames = frames_with frame.now self.old.frames } }
    {
        self.frames.push_front(FrameBuf::copy_of(frame));
    }

    // Delivers bytes to the target, and keeps its answer.
    fn deliver(&mut self, frame: &[u8], got: &mut FrameBuf) -> Heard
        requires { 0 < length self.old.frames }
        ensures heard { answer_heard result got.new ≡ given self.old.target frame.now }
        ensures wire { self.new ≡ record self.old {
          target = delivered self.old.target frame.now;
          answers = answers_with (given self.old.target frame.now) self.old.answers;
        } }
    {
        match self.target.deliver(frame, got) {
            Heard::Answer => {
                self.answers.push_front(FrameBuf::copy_of(got.as_slice()));
                Heard::Answer
            }
            Heard::Silence => Heard::Silence,
        }
    }

    // Delivers the frame of the exchange before, if there was one.
    fn deliver_before(&mut self, got: &mut FrameBuf) -> Heard
        requires { 0 < length self.old.frames }
        ensures heard { answer_heard result got.new ≡ stale_answer (slice_get self.old.frames 1) self.old.target }
        ensures wire { self.new ≡ record self.old {
          target = all_delivered (option_to_list (slice_get self.old.frames 1)) self.old.target;
          answers = answers_after (option_to_list (slice_get self.old.frames 1)) self.old.target self.old.answers;
        } }
    {
        let before = match self.frames.get(1) {
            None => return Heard::Silence,
            Some(before) => FrameBuf::copy_of(before.as_slice()),
        };
        self.deliver(before.as_slice(), got)
    }

    // Carries a frame by its fate.
    fn carry(&mut self, fate: Fate, frame: &[u8], got: &mut FrameBuf) -> Heard
        requires { 0 < length self.old.frames }
        ensures carried { Carried fate (slice_get self.old.frames 1) frame.now (answer_heard result got.new)
            self.old.target self.new.target self.old.answers self.new.answers }
        ensures wire { self.new ≡ record self.old { target = self.new.target; answers = self.new.answers } }
    {
        match fate {
            Fate::Pass => self.deliver(frame, got),
            Fate::RequestLost => Heard::Silence,
            Fate::AnswerLost => {
                let _ = self.deliver(frame, got);
                Heard::Silence
            }
            Fate::Twice => {
                let _ = self.deliver(frame, got);
                self.deliver(frame, got)
            }
            Fate::Stale => {
                let heard = self.deliver_before(got);
                let _ = self.deliver(frame, &mut FrameBuf::new());
                heard
            }
        }
    }

    // What each link in memory promises of its answers and its kept reply.
    fn promises(&self)
        ensures few { length self.now.answers ≤ KEPT_FRAMES }
        ensures reads { IsReadReply self.now.target.kept }
    {
        self.target.kept_reads();
    }
}

// The fate of an exchange.
fn chosen_fate(faults: u64, lost: bool, listed: Fate) -> Fate
    ensures fate { result ≡ chosen_fate faults lost listed }
    ensures room { faults + faults_of result < 2 ^ 64 }
{
    if faults == u64::MAX {
        Fate::Pass
    } else if lost {
        Fate::RequestLost
    } else {
        listed
    }
}

impl Link for Wire {
    ghost target = { λ w. w.target };

    ghost frames = { λ w. w.frames };

    ghost answers = { λ w. w.answers };

    ghost scheduled = { λ w. w.fates };

    ghost faults = { λ w. w.faults };

    fn exchange(&mut self, frame: &[u8], got: &mut FrameBuf) -> Heard
        requires { length frame.now ≤ MAX_FRAME_BYTES }
        ensures frames { self.new.frames ≡ frames_with frame.now self.old.frames }
        ensures few { length self.new.answers ≤ KEPT_FRAMES }
        ensures scheduled { self.new.fates ≡ self.old.fates }
        ensures exchanged { Exchanged frame.now (answer_heard result got.new) self.old.target self.new.target
            self.old.frames self.old.answers self.new.answers self.old.faults self.new.faults }
        // what becomes of the frame by the fate of this exchange
        ensures carried { Carried (fate_of self.old frame.now) (slice_get self.old.frames 0) frame.now
            (answer_heard result got.new) self.old.target self.new.target self.old.answers self.new.answers }
        ensures wire { self.new ≡ record (after_fate self.old frame.now) {
          target = self.new.target;
          frames = self.new.frames;
          answers = self.new.answers;
        } }
    {
        let fate = self.next_fate(frame);
        self.keep_frame(frame);
        let heard = self.carry(fate, frame, got);
        self.promises();
        heard
    }

    fn schedule(&mut self, alloc: Global, fates: &[Fate]) -> Result<(), NoMemory> {
        let list = fates.to_vec(alloc)?;
        self.fates = list;
        self.at = 0;
        Ok(())
    }

    fn fresh(&self) -> bool {
        self.frames.is_empty()
    }
}
