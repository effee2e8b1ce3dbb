//! The host's end of a link.
ghost use Rattle.std.specs.Prelude.{◌≡◌, ◌<◌, ◌≤◌, ◌+◌, ◌-◌, ◌^◌, ℕ, List, Some, None, true, false, IfSome, IsSome, IsTrue, ◌↔◌, OnOk, OnErr, length};
ghost use Rattle.target_monitor.specs.declared.requests.Request.{Request};
ghost use Rattle.target_monitor.specs.Served.{HasForm};
ghost use Rattle.link_frames.specs.declared.frame_buf.TheConstants.{MAX_FRAME_BYTES};
ghost use Rattle.link_frames.specs.declared.frames.AnswerFrame.{AnswerFrame};
ghost use Rattle.link_frames.specs.Frames.{answer_of};
ghost use Rattle.monitor_link.specs.Target.{EndState};
ghost use Rattle.monitor_link.specs.Host.{HostState, IsKeptFrame, request_in_frame, sender, IsSynchronized, AtMostOnce, IsBase, Asked, next_number, waits_after};

use crate::link::{Heard, Link};
use link_frames::{FrameBuf, read_answer, write_request};
use std::marker::Model;
use target_monitor::{Reply, Request};

/// How many exchanges a call tries.
pub const TRIES: u32 = 8;

/// No answer came in eight exchanges, and the request waits.
#[derive(Clone, Copy, PartialEq, Eq)]
pub struct LinkDown;

/// The host's end of a link. A clause sees the number of its last request, and the request that waits for its answer, if
/// one does.
#[derive(Drop)]
pub struct HostEnd {
    number: u64,
    waiting: bool,
    frame: FrameBuf,
}

impl Model for HostEnd {
    ghost use Rattle.monitor_link.specs.Host.{HostState, waiting_request, IsKeptFrame};

    ghost Value = { HostState };

    ghost view = { λ h. record { number = h.number; waits = waiting_request h.waiting h.frame } };

    ghost invariant = { λ h. IsKeptFrame h.waiting h.number h.frame };
}

impl HostEnd {
    /// An end that has asked nothing yet.
    pub fn new() -> HostEnd
        ensures { result ≡ record { number = 0; waits = None } }
    {
        HostEnd {
            number: 0,
            waiting: false,
            frame: FrameBuf::new(),
        }
    }

    /// Whether a request waits.
    pub fn waits(&self) -> bool
        ensures { IsTrue result ↔ IsSome self.now.waits }
    {
        self.waiting
    }

    /// Asks a request, or asks again the one that waits, which this one then is. It tries at most eight exchanges, all
    /// with one number. At Ok the target executed the request exactly once since it was first asked, and `reply` is its
    /// reply to it. At LinkDown it executed it at most once, and the request waits; that comes only where the link's
    /// count of faults rose in each of eight exchanges. Takes no memory.
    pub fn ask<L: Link>(
        &mut self,
        link: &mut L,
        request: &Request,
        reply: &mut Reply,
    ) -> Result<(), LinkDown>
        requires in_step { IsSynchronized self.old (L.target link.old) (L.frames link.old) (L.answers link.old) }
        requires form { HasForm request.now }
        requires same { IfSome self.old.waits (λ r. r ≡ request.now) }
        requires room { self.old.number < 2 ^ 64 - 1 }
        ensures in_step { IsSynchronized self.new (L.target link.new) (L.frames link.new) (L.answers link.new) }
        ensures number { self.new.number ≡ next_number self.old.waits self.old.number }
        ensures waits { self.new.waits ≡ waits_after result (Some request.now) }
        ensures once { (base : EndState) → IsBase self.old request.now base (L.target link.old)
            → Asked result request.now base self.new (L.target link.new) reply.new }
        ensures later { L.faults link.old ≤ L.faults link.new }
        ensures down { OnErr result (L.faults link.old + 8 ≤ L.faults link.new) }
        ensures reply { OnErr result (reply.new ≡ reply.old) }
        ensures scheduled { L.scheduled link.new ≡ L.scheduled link.old }
    {
        self.begin(request);
        self.again(link, reply)
    }

    /// Asks again the request that waits, as `ask` does. Takes no memory.
    pub fn again<L: Link>(&mut self, link: &mut L, reply: &mut Reply) -> Result<(), LinkDown>
        requires in_step { IsSynchronized self.old (L.target link.old) (L.frames link.old) (L.answers link.old) }
        requires waits { IsSome self.old.waits }
        ensures in_step { IsSynchronized self.new (L.target link.new) (L.frames link.new) (L.answers link.new) }
        ensures number { self.new.number ≡ self.old.number }
        ensures waits { self.new.waits ≡ waits_after result self.old.waits }
        ensures once { (request : Request) (base : EndState) → self.old.waits ≡ Some request
            → IsBase self.old request base (L.target link.old)
            → Asked result request base self.new (L.target link.new) reply.new }
        ensures later { L.faults link.old ≤ L.faults link.new }
        ensures down { OnErr result (L.faults link.old + 8 ≤ L.faults link.new) }
        ensures reply { OnErr result (reply.new ≡ reply.old) }
        ensures scheduled { L.scheduled link.new ≡ L.scheduled link.old }
    {
        let result = exchange_often(link, self.number, self.frame.as_slice(), reply);
        self.waiting = result.is_err();
        result
    }

    // Gives the request the next number and writes its frame, unless it waits.
    fn begin(&mut self, request: &Request)
        requires form { HasForm request.now }
        requires same { IfSome self.old.waits (λ r. r ≡ request.now) }
        requires room { self.old.number < 2 ^ 64 - 1 }
        ensures number { self.new.number ≡ next_number self.old.waits self.old.number }
        ensures waits { self.new.waits ≡ Some request.now }
    {
        if !self.waiting {
            self.number += 1;
            write_request(self.number, request, &mut self.frame);
            self.waiting = true;
        }
    }
}

// Sends the frame of the request that waits up to eight times.
fn exchange_often<L: Link>(
    link: &mut L,
    number: u64,
    frame: &[u8],
    reply: &mut Reply,
) -> Result<(), LinkDown>
    requires few { length frame.now ≤ MAX_FRAME_BYTES }
    requires says { IsKeptFrame true number frame.now }
    requires in_step { IsSynchronized (sender number frame.now) (L.target link.old) (L.frames link.old) (L.answers link.old) }
    ensures in_step { IsSynchronized (sender number frame.now) (L.target link.new) (L.frames link.new) (L.answers link.new) }
    ensures once { (request : Request) (base : EndState) → request_in_frame frame.now ≡ Some request
        → base.last + 1 ≡ number → AtMostOnce base request (L.target link.old) → AtMostOnce base request (L.target link.new) }
    ensures answered { OnOk result ((L.target link.new).last ≡ number) }
    ensures reply { OnOk result ((L.target link.new).kept ≡ reply.new) }
    ensures later { L.faults link.old ≤ L.faults link.new }
    ensures down { OnErr result (L.faults link.old + 8 ≤ L.faults link.new) }
    ensures reply_kept { OnErr result (reply.new ≡ reply.old) }
    ensures scheduled { L.scheduled link.new ≡ L.scheduled link.old }
{
    let mut got = FrameBuf::new();
    for _tried in 0..TRIES {
        if exchange_once(link, number, frame, &mut got, reply) {
            return Ok(());
        }
    }
    Err(LinkDown)
}

// Sends the frame of the request that waits: whether its answer came.
fn exchange_once<L: Link>(
    link: &mut L,
    number: u64,
    frame: &[u8],
    got: &mut FrameBuf,
    reply: &mut Reply,
) -> bool
    requires few { length frame.now ≤ MAX_FRAME_BYTES }
    requires says { IsKeptFrame true number frame.now }
    requires in_step { IsSynchronized (sender number frame.now) (L.target link.old) (L.frames link.old) (L.answers link.old) }
    ensures in_step { IsSynchronized (sender number frame.now) (L.target link.new) (L.frames link.new) (L.answers link.new) }
    ensures once { (request : Request) (base : EndState) → request_in_frame frame.now ≡ Some request
        → base.last + 1 ≡ number → AtMostOnce base request (L.target link.old) → AtMostOnce base request (L.target link.new) }
    ensures answered { result ≡ true → (L.target link.new).last ≡ number }
    ensures reply { result ≡ true → (L.target link.new).kept ≡ reply.new }
    ensures later { L.faults link.old ≤ L.faults link.new }
    ensures down { result ≡ false → L.faults link.old < L.faults link.new }
    ensures reply_kept { result ≡ false → reply.new ≡ reply.old }
    ensures scheduled { L.scheduled link.new ≡ L.scheduled link.old }
{
    match link.exchange(frame, got) {
        Heard::Answer => take_reply(number, got.as_slice(), reply),
        Heard::Silence => false,
    }
}

// Whether the bytes are an answer with this number, whose reply is then given.
fn take_reply(number: u64, answer: &[u8], reply: &mut Reply) -> bool
    ensures found { result ≡ true → answer_of answer.now ≡ Some (record { number = number; reply = reply.new }) }
    ensures other { result ≡ false → (a : AnswerFrame) → answer_of answer.now ≡ Some a → a.number ≡ number → ⊥ }
    ensures kept { result ≡ false → reply.new ≡ reply.old }
{
    match read_answer(answer) {
        None => false,
        Some(read) => {
            if read.number == number {
                *reply = read.reply;
                true
            } else {
                false
            }
        }
    }
}
