// A source and a sink in memory. The calls are counted from 0, and those in a list fail.
ghost use Rattle.std.specs.Prelude.{◌≡◌, ◌≤◌, ◌<◌, ◌+◌, ◌-◌, ◌^◌, ◌↔◌, [], ℕ, List, length, vec_len, min, drop, take, Contains, IsErr, IfOk, IsErrOf, Option, Some};
ghost use Rattle.std.specs.Io.{ReadsAtMost, WritesAtMost};
ghost use Rattle.std.specs.Io.KnownBytes.{ReadConsumes, WriteAppends};
ghost use Rattle.io_edge.specs.Causes.{HasCause, WriteCause};

use crate::edge::{Failed, Sink, Source, WriteStop};
use std::alloc::Global;
use std::marker::Model;

/// A source over bytes in memory. A clause sees what is left, the numbers of the calls that fail, the
/// number of the next call, and the faults so far.
#[derive(Drop)]
pub struct MemSource {
    bytes: Vec<u8>,
    at: usize,
    fails: Vec<u64>,
    calls: u64,
    faults: u64,
}

impl Model for MemSource {
    ghost use Rattle.std.specs.Prelude.{◌≤◌, drop, vec_len};
    ghost use Rattle.io_edge.specs.Memory.{SourceState};

    ghost Value = { SourceState };

    ghost view = { λ s. record { left = drop s.at s.bytes.items; fails = s.fails.items; calls = s.calls; faults = s.faults } };

    ghost invariant = { λ s. s.at ≤ vec_len s.bytes };
}

impl MemSource {
    /// A source of these bytes. The calls of `read` are counted from 0, up to `u64::MAX`, and those
    /// whose numbers are in `fails` answer `Failed`; no other does.
    pub fn new(_alloc: Global, bytes: Vec<u8>, fails: Vec<u64>) -> MemSource
        ensures { result ≡ record { left = bytes.items; fails = fails.items; calls = 0; faults = 0 } }
    {
        MemSource {
            bytes,
            at: 0,
            fails,
            calls: 0,
            faults: 0,
        }
    }
}

/// Copies as many bytes from `at` on as are there and fit, and says how many.
fn fill(buf: &mut [u8], bytes: &[u8], at: usize) -> usize
    requires { at ≤ length bytes.now }
    ensures count { result ≡ min (length bytes.now - at) (length buf.old) }
    ensures front { take result buf.new ≡ take result (drop at bytes.now) }
{
    let count = (bytes.len() - at).min(buf.len());
    buf[..count].copy_from_slice(&bytes[at..at + count]);
    count
}

impl Source for MemSource {
    ghost left = { λ s. Some s.left };

    ghost faults = { λ s. s.faults };

    fn read(&mut self, buf: &mut [u8]) -> Result<usize, Failed>
        ensures bound { ReadsAtMost result buf.new }
        ensures bytes { ReadConsumes (Some self.old.left) (Some self.new.left) result buf.new }
        ensures cause { HasCause self.old.faults self.new.faults result }
        ensures listed { IsErr result ↔ Contains self.old.fails self.old.calls }
        ensures calls { self.new.calls ≡ min (self.old.calls + 1) (2 ^ 64 - 1) }
        ensures fails { self.new.fails ≡ self.old.fails }
    {
        let number = self.calls;
        self.calls = number.saturating_add(1);
        if self.fails.contains(&number) {
            self.faults = self.faults.saturating_add(1);
            return Err(Failed);
        }
        let count = fill(buf, &self.bytes, self.at);
        self.at += count;
        Ok(count)
    }
}

/// A sink into memory. A clause sees what was taken, the most bytes that one write takes, the numbers
/// of the calls that fail, the number of the next call, and the faults so far.
#[derive(Drop)]
pub struct MemSink {
    bytes: Vec<u8>,
    most: usize,
    fails: Vec<u64>,
    calls: u64,
    faults: u64,
}

impl Model for MemSink {
    ghost use Rattle.std.specs.Prelude.{◌≤◌};
    ghost use Rattle.io_edge.specs.Memory.{SinkState};

    ghost Value = { SinkState };

    ghost view = { λ s. record { written = s.bytes.items; most = s.most; fails = s.fails.items; calls = s.calls; faults = s.faults } };

    ghost invariant = { λ s. 1 ≤ s.most };
}

impl MemSink {
    /// An empty sink. A write takes the lesser of `most` and the piece's length, in bytes. The calls
    /// of `write` are counted from 0, up to `u64::MAX`, and those whose numbers are in `fails` answer
    /// `WriteFault`; no other does. One that wants memory counts as a call.
    pub fn new(alloc: Global, most: usize, fails: Vec<u64>) -> MemSink
        requires { 1 ≤ most }
        ensures { result ≡ record { written = []; most = most; fails = fails.items; calls = 0; faults = 0 } }
    {
        MemSink {
            bytes: Vec::new(alloc),
            most,
            fails,
            calls: 0,
            faults: 0,
        }
    }

    /// The bytes that were taken, in order.
    pub fn bytes(&self) -> &[u8]
        ensures { result.now ≡ self.now.written }
    {
        self.bytes.as_slice()
    }
}

impl Sink for MemSink {
    ghost written = { λ s. Some s.written };

    ghost faults = { λ s. s.faults };

    fn write(&mut self, piece: &[u8]) -> Result<usize, WriteStop>
        ensures bound { WritesAtMost result piece.now }
        ensures some { IfOk result (λ n. 0 < length piece.now → 0 < n) }
        ensures bytes { WriteAppends (Some self.old.written) (Some self.new.written) result piece.now }
        ensures cause { WriteCause self.old.faults self.new.faults result }
        ensures listed { IsErrOf result WriteStop.WriteFault ↔ Contains self.old.fails self.old.calls }
        ensures count { IfOk result (λ n. n ≡ min self.old.most (length piece.now)) }
        ensures calls { self.new.calls ≡ min (self.old.calls + 1) (2 ^ 64 - 1) }
        ensures fails { self.new.fails ≡ self.old.fails }
        ensures most { self.new.most ≡ self.old.most }
    {
        let number = self.calls;
        self.calls = number.saturating_add(1);
        if self.fails.contains(&number) {
            self.faults = self.faults.saturating_add(1);
            return Err(WriteStop::WriteFault);
        }
        let count = self.most.min(piece.len());
        match self.bytes.extend_from_slice(&piece[..count]) {
            Ok(()) => Ok(count),
            Err(error) => Err(WriteStop::Memory(error)),
        }
    }
}
