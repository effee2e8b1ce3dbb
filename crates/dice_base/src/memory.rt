//! A source and a sink in memory, which fail at the calls that are listed.
ghost use Rattle.std.specs.Prelude.{◌≡◌, ◌<◌, ◌≤◌, ◌-◌, [], min, length, take, drop, Some, false, IfOk, is_err, vec_len};
ghost use Rattle.std.specs.Io.{ReadsAtMost, WritesAtMost};
ghost use Rattle.std.specs.Io.KnownBytes.{ReadConsumes, WriteAppends};
ghost use Rattle.dice_base.specs.Causes.{HasCause};

use crate::{Failed, NoMemory, Sink, Source};
use std::alloc::Global;

/// A source that gives bytes from memory, at most `step` at a time.
#[derive(Drop)]
pub struct MemSource {
    bytes: Vec<u8>,
    at: usize,
    step: usize,
    fails: Vec<u32>,
    calls: u32,
    faults: u64,
    ghost within: { at ≤ vec_len bytes },
    ghost moves: { 0 < step },
}

/// A sink that keeps bytes in memory, at most `step` at a time, until it is full. All its memory is taken when it is
/// made.
#[derive(Drop)]
pub struct MemSink {
    bytes: Vec<u8>,
    filled: usize,
    step: usize,
    fails: Vec<u32>,
    calls: u32,
    faults: u64,
    ghost within: { filled ≤ vec_len bytes },
    ghost moves: { 0 < step },
}

// Copies bytes from the front of one slice to another, at most `step`.
fn copy_front(from: &[u8], to: &mut [u8], step: usize) -> usize
    ensures count { result ≡ min (min (length from.now) (length to.old)) step }
    ensures copied { take result to.new ≡ take result from.now }
{
    let count = from.len().min(to.len()).min(step);
    to[..count].copy_from_slice(&from[..count]);
    count
}

impl MemSource {
    ghost use Rattle.dice_base.specs.Memory.{bytes_left, failing_reads, read_faults, read_step, reads};

    /// A source of these bytes. A read gives at most `step` of them, and fails at the calls whose numbers, counted
    /// from 1, are listed.
    pub fn new(
        alloc: Global,
        bytes: &[u8],
        step: usize,
        fails: &[u32],
    ) -> Result<MemSource, NoMemory>
        requires { 0 < step }
        ensures left { IfOk result (λ source. bytes_left source ≡ bytes.now) }
        ensures step { IfOk result (λ source. read_step source ≡ step) }
        ensures fails { IfOk result (λ source. failing_reads source ≡ fails.now) }
        ensures calls { IfOk result (λ source. reads source ≡ 0) }
        ensures faults { IfOk result (λ source. read_faults source ≡ 0) }
    {
        let bytes = bytes.to_vec(alloc)?;
        let fails = fails.to_vec(alloc)?;
        Ok(MemSource {
            bytes,
            at: 0,
            step,
            fails,
            calls: 0,
            faults: 0,
        })
    }
}

impl Source for MemSource {
    ghost use Rattle.dice_base.specs.Memory.{bytes_left, failing_reads, lists_next, next_call, read_faults, read_step, reads};

    ghost left = { λ s. Some (bytes_left s) };

    ghost faults = { read_faults };

    fn read(&mut self, into: &mut [u8]) -> Result<usize, Failed>
        ensures bound { ReadsAtMost result into.new }
        ensures bytes { ReadConsumes (Some (bytes_left self.old)) (Some (bytes_left self.new)) result into.new }
        ensures cause { HasCause (read_faults self.old) (read_faults self.new) result }
        ensures failed { is_err result ≡ lists_next (failing_reads self.old) (reads self.old) }
        ensures count { IfOk result (λ n. n ≡ min (min (length (bytes_left self.old))
            (length into.old)) (read_step self.old)) }
        ensures calls { reads self.new ≡ next_call (reads self.old) }
        ensures step { read_step self.new ≡ read_step self.old }
        ensures fails { failing_reads self.new ≡ failing_reads self.old }
    {
        self.calls = self.calls.saturating_add(1);
        if self.fails.contains(&self.calls) {
            self.faults = self.faults.saturating_add(1);
            return Err(Failed);
        }
        let count = copy_front(&self.bytes[self.at..], into, self.step);
        self.at += count;
        Ok(count)
    }
}

impl MemSink {
    ghost use Rattle.dice_base.specs.Memory.{bytes_held, failing_writes, room_of, write_faults, write_step, writes};

    /// An empty sink with room for so many bytes. A write takes at most `step` bytes, and fails at the calls whose
    /// numbers, counted from 1, are listed, and where the sink is full.
    pub fn new(alloc: Global, room: usize, step: usize, fails: &[u32]) -> Result<MemSink, NoMemory>
        requires { 0 < step }
        ensures held { IfOk result (λ sink. bytes_held sink ≡ []) }
        ensures room { IfOk result (λ sink. room_of sink ≡ room) }
        ensures step { IfOk result (λ sink. write_step sink ≡ step) }
        ensures fails { IfOk result (λ sink. failing_writes sink ≡ fails.now) }
        ensures calls { IfOk result (λ sink. writes sink ≡ 0) }
        ensures faults { IfOk result (λ sink. write_faults sink ≡ 0) }
    {
        let bytes = vec![in alloc; 0; room]?;
        let fails = fails.to_vec(alloc)?;
        Ok(MemSink {
            bytes,
            filled: 0,
            step,
            fails,
            calls: 0,
            faults: 0,
        })
    }

    /// The bytes that it holds.
    pub fn bytes(&self) -> &[u8]
        ensures { result.now ≡ bytes_held self.now }
    {
        &self.bytes[..self.filled]
    }
}

impl Sink for MemSink {
    ghost use Rattle.dice_base.specs.Memory.{bytes_held, failing_writes, next_call, refuses, room_of, write_step, write_faults, writes};

    ghost held = { λ s. Some (bytes_held s) };

    ghost faults = { write_faults };

    fn write(&mut self, piece: &[u8]) -> Result<usize, Failed>
        ensures bound { WritesAtMost result piece.now }
        ensures some { IfOk result (λ n. 0 < length piece.now → 0 < n) }
        ensures bytes { WriteAppends (Some (bytes_held self.old)) (Some (bytes_held self.new)) result piece.now }
        ensures cause { HasCause (write_faults self.old) (write_faults self.new) result }
        ensures failed { is_err result ≡ refuses self.old piece.now }
        ensures count { IfOk result (λ n. n ≡ min (min (length piece.now)
            (room_of self.old - length (bytes_held self.old))) (write_step self.old)) }
        ensures calls { writes self.new ≡ next_call (writes self.old) }
        ensures room { room_of self.new ≡ room_of self.old }
        ensures step { write_step self.new ≡ write_step self.old }
        ensures fails { failing_writes self.new ≡ failing_writes self.old }
    {
        self.calls = self.calls.saturating_add(1);
        let is_full = self.filled == self.bytes.len() && !piece.is_empty();
        if self.fails.contains(&self.calls) || is_full {
            self.faults = self.faults.saturating_add(1);
            return Err(Failed);
        }
        let count = copy_front(piece, &mut self.bytes[self.filled..], self.step);
        self.filled += count;
        Ok(count)
    }
}
