// A source and a sink in memory, which fail at the calls that they are told to.
ghost use Rattle.std.specs.Prelude.{◌≡◌, ◌↔◌, ◌⊎◌, ◌+◌, ◌-◌, ◌++◌, ◌<◌, ◌≤◌, List, [], ℕ, Ok, Some, IsErr, IfOk, length, take, drop, min, vec_len};
ghost use Rattle.std.specs.Io.{ReadsAtMost, WritesAtMost};
ghost use Rattle.std.specs.Io.KnownBytes.{ReadConsumes, WriteAppends};
ghost use Rattle.lisa_io.specs.Causes.{HasCause};

use crate::calls::Calls;
use crate::outside::{Failed, Flush, Sink, Source};

// Copies from a place on to the front of a slice, as much as both have.
pub(crate) fn copy_from(bytes: &[u8], at: usize, into: &mut [u8]) -> usize
    requires { at ≤ length bytes.now }
    ensures count { result ≡ min (length bytes.now - at) (length into.old) }
    ensures same { take result into.new ≡ take result (drop at bytes.now) }
    ensures long { length into.new ≡ length into.old }
{
    let count = (bytes.len() - at).min(into.len());
    into[..count].copy_from_slice(&bytes[at..at + count]);
    count
}

// Writes a piece at a place, where there is room for it.
pub(crate) fn write_at(room: &mut [u8], at: usize, piece: &[u8])
    requires { at + length piece.now ≤ length room.old }
    ensures { take (at + length piece.now) room.new ≡ take at room.old ++ piece.now }
{
    room[at..at + piece.len()].copy_from_slice(piece);
}

/// A source of bytes in memory.
#[derive(Drop)]
pub struct MemSource {
    bytes: Vec<u8>,
    at: usize,
    calls: Calls,
    faults: u64,
    ghost within: { at ≤ vec_len bytes },
}

impl MemSource {
    ghost use Rattle.lisa_io.specs.Memory.{source_calls};

    /// The bytes, and the numbers of the calls that are to fail, counted from 1.
    pub fn new(bytes: Vec<u8>, failing: Vec<u64>) -> MemSource
        ensures left { ⟦<MemSource as Source>⟧.left result ≡ Some bytes.items }
        ensures faults { ⟦<MemSource as Source>⟧.faults result ≡ 0 }
        ensures calls { source_calls result ≡ record { failing = failing; made = 0 } }
    {
        MemSource {
            bytes,
            at: 0,
            calls: Calls::new(failing),
            faults: 0,
        }
    }
}

impl Source for MemSource {
    ghost use Rattle.lisa_io.specs.Memory.{bytes_left, source_faults, source_calls, IsNextCall, IsToFail};

    ghost left = { λ s. Some (bytes_left s) };

    ghost faults = { λ s. source_faults s };

    fn take(&mut self, into: &mut [u8]) -> Result<usize, Failed>
        ensures bound { ReadsAtMost result into.new }
        ensures bytes { ReadConsumes (Some (bytes_left self.old)) (Some (bytes_left self.new)) result into.new }
        ensures empty { length into.old ≡ 0 → result ≡ Ok 0 }
        ensures cause { HasCause (source_faults self.old) (source_faults self.new) result }

        // It fails at the calls that it was told to, and else takes what there is room for.
        ensures calls { IsNextCall (source_calls self.old) (source_calls self.new) }
        ensures fails { IsErr result ↔ (IsToFail (source_calls self.old) × (0 < length into.old)) }
        ensures takes { IfOk result (λ k. k ≡ min (length (bytes_left self.old)) (length into.old)) }
    {
        let fails = self.calls.fails();
        if into.is_empty() {
            return Ok(0);
        }
        if fails {
            self.faults = self.faults.saturating_add(1);
            return Err(Failed);
        }
        let count = copy_from(&self.bytes, self.at, into);
        self.at += count;
        Ok(count)
    }
}

/// A sink in memory, of a fixed room.
#[derive(Drop)]
pub struct MemSink {
    room: Vec<u8>,
    len: usize,
    most: usize,
    calls: Calls,
    faults: u64,
    ghost within: { len ≤ vec_len room },
    ghost some: { 0 < most },
}

impl MemSink {
    ghost use Rattle.lisa_io.specs.Memory.{sink_bytes, sink_calls, sink_most, sink_room};

    /// A sink for as many bytes as `room` has, of which one put takes at most `most`, and the
    /// numbers of the puts that are to fail, counted from 1.
    pub fn new(room: Vec<u8>, most: usize, failing: Vec<u64>) -> MemSink
        requires { 0 < most }
        ensures written { ⟦<MemSink as Sink>⟧.written result ≡ Some [] }
        ensures faults { ⟦<MemSink as Sink>⟧.faults result ≡ 0 }
        ensures calls { sink_calls result ≡ record { failing = failing; made = 0 } }
        ensures room { sink_room result ≡ vec_len room }
        ensures most { sink_most result ≡ most }
    {
        MemSink {
            room,
            len: 0,
            most,
            calls: Calls::new(failing),
            faults: 0,
        }
    }

    /// What was written.
    pub fn bytes(&self) -> &[u8]
        ensures { ⟦<MemSink as Sink>⟧.written self.now ≡ Some result.now }
    {
        &self.room[..self.len]
    }
}

impl Sink for MemSink {
    ghost use Rattle.lisa_io.specs.Memory.{sink_bytes, sink_faults, sink_calls, sink_most, sink_room, IsNextCall, IsToFail};

    ghost written = { λ s. Some (sink_bytes s) };

    ghost faults = { λ s. sink_faults s };

    fn put(&mut self, piece: &[u8]) -> Result<usize, Failed>
        ensures bound { WritesAtMost result piece.now }
        ensures some { 0 < length piece.now → IfOk result (λ k. 0 < k) }
        ensures bytes { WriteAppends (Some (sink_bytes self.old)) (Some (sink_bytes self.new)) result piece.now }
        ensures empty { length piece.now ≡ 0 → result ≡ Ok 0 }
        ensures cause { HasCause (sink_faults self.old) (sink_faults self.new) result }

        // It fails at the calls that it was told to and where no room is left, and else takes
        // what there is room for, up to its most.
        ensures calls { IsNextCall (sink_calls self.old) (sink_calls self.new) }
        ensures fails { IsErr result ↔ ((IsToFail (sink_calls self.old) ⊎ (sink_room self.old ≡ 0)) × (0 < length piece.now)) }
        ensures takes { IfOk result (λ k. k ≡ min (min (length piece.now) (sink_most self.old)) (sink_room self.old)) }
        ensures room { IfOk result (λ k. sink_room self.new + k ≡ sink_room self.old) }
        ensures most { sink_most self.new ≡ sink_most self.old }
    {
        let fails = self.calls.fails();
        if piece.is_empty() {
            return Ok(0);
        }
        if fails || self.len == self.room.len() {
            self.faults = self.faults.saturating_add(1);
            return Err(Failed);
        }
        let count = piece.len().min(self.most).min(self.room.len() - self.len);
        write_at(&mut self.room, self.len, &piece[..count]);
        self.len += count;
        Ok(count)
    }
}

impl Flush for MemSink {
    ghost use Rattle.lisa_io.specs.Gathered.{front_of_itself};
    ghost use Rattle.lisa_io.specs.Memory.{sink_bytes};

    ghost sent = { λ s. Some (sink_bytes s) };

    fn flush(&mut self) -> Result<(), Failed> {
        Ok(())
    }

    ghost in_order = { λ s. front_of_itself (Some (sink_bytes s)) };
}
