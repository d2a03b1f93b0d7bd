ghost use Rattle.std.specs.Prelude.{◌≡◌, ◌≢◌, ℕ, ◌<◌, ◌≤◌, [], List, length, Option, IfOk, map};
ghost use Rattle.le_base.specs.Outside.{Reads, Writes, Rose};
ghost use Rattle.le_base.specs.Memory.{next_got, source_after, next_took, sink_after};

use crate::outside::{Got, Sink, Source, Took};
use std::alloc::{AllocError, Global};
use std::marker::Model;

/// A source over memory that gives its bytes in pieces, and fails at the calls that it is told.
#[derive(Drop)]
pub struct MemSource {
    bytes: Vec<u8>,
    at: usize,
    piece: usize,
    fails: Vec<u64>,
    calls: u64,
    faults: u64,
}

impl Model for MemSource {
    ghost use Rattle.std.specs.Prelude.{◌≤◌, ◌<◌, drop, vec_len};
    ghost use Rattle.le_base.specs.Memory.{SourceState};

    ghost Value = { SourceState };

    ghost view = { λ s. record { left = drop s.at s.bytes.items; piece = s.piece; fails = s.fails.items; calls = s.calls; faults = s.faults } };

    ghost invariant = { λ s. (s.at ≤ vec_len s.bytes) × (0 < s.piece) };
}

impl MemSource {
    /// A source of these bytes, at most `piece` of them a call, whose calls with a number in `fails`
    /// fail. Calls are numbered from 1, and the number stands still at 2^64 - 1.
    pub fn new(bytes: Vec<u8>, piece: usize, fails: Vec<u64>) -> Self
        requires { 0 < piece }
        ensures { result ≡ record { left = bytes.items; piece = piece; fails = fails.items; calls = 0; faults = 0 } }
    {
        MemSource {
            bytes,
            at: 0,
            piece,
            fails,
            calls: 0,
            faults: 0,
        }
    }
}

impl Source for MemSource {
    ghost use Rattle.std.specs.Prelude.{Some};

    ghost faults = { λ s. s.faults };

    ghost left = { λ s. Some s.left };

    /// The least of `piece`, the buffer's length and the bytes left, or the end, or a failure where
    /// this call is to fail.
    fn read(&mut self, buffer: &mut [u8]) -> Got
        requires { 0 < length buffer.old }
        ensures answer { result ≡ next_got self.old (length buffer.old) }
        ensures after { self.new ≡ source_after self.old result }
        ensures content { Reads (Some self.old.left) (Some self.new.left) result buffer.new }
        ensures failed { result ≡ Got.Failed → Rose self.old.faults self.new.faults }
        ensures kept { result ≢ Got.Failed → self.new.faults ≡ self.old.faults }
        ensures count { self.old.faults ≤ self.new.faults }
    {
        self.calls = self.calls.saturating_add(1);
        if self.fails.contains(&self.calls) {
            self.faults = self.faults.saturating_add(1);
            return Got::Failed;
        }
        let left = self.bytes.len() - self.at;
        if left == 0 {
            return Got::End;
        }
        let count = self.piece.min(buffer.len()).min(left);
        let end = self.at + count;
        buffer[..count].copy_from_slice(&self.bytes[self.at..end]);
        self.at = end;
        Got::Bytes(count)
    }
}

/// A sink over memory that takes its bytes in pieces, has a fixed room, and fails at the calls that
/// it is told.
#[derive(Drop)]
pub struct MemSink {
    bytes: Vec<u8>,
    room: usize,
    piece: usize,
    fails: Vec<u64>,
    calls: u64,
    faults: u64,
}

impl Model for MemSink {
    ghost use Rattle.std.specs.Prelude.{◌≤◌, ◌<◌, vec_len, vec_capacity};
    ghost use Rattle.le_base.specs.Memory.{SinkState};

    ghost Value = { SinkState };

    ghost view = { λ s. record { written = s.bytes.items; room = s.room; piece = s.piece; fails = s.fails.items; calls = s.calls; faults = s.faults } };

    ghost invariant = { λ s. (vec_len s.bytes ≤ s.room) × (s.room ≤ vec_capacity s.bytes) × (0 < s.piece) };
}

impl MemSink {
    /// A sink for at most `room` bytes, which are reserved, and at most `piece` of them a call, whose
    /// calls with a number in `fails` fail. Calls are numbered from 1, and the number stands still at
    /// 2^64 - 1.
    pub fn new(
        alloc: Global,
        room: usize,
        piece: usize,
        fails: Vec<u64>,
    ) -> Result<Self, AllocError>
        requires { 0 < piece }
        ensures { IfOk result (λ sink. sink ≡ record { written = []; room = room; piece = piece; fails = fails.items; calls = 0; faults = 0 }) }
    {
        Ok(MemSink {
            bytes: Vec::with_capacity(alloc, room)?,
            room,
            piece,
            fails,
            calls: 0,
            faults: 0,
        })
    }

    /// What was written.
    pub fn bytes(&self) -> &[u8]
        ensures { result.now ≡ self.now.written }
    {
        self.bytes.as_slice()
    }
}

impl Sink for MemSink {
    ghost use Rattle.std.specs.Prelude.{Some};

    ghost faults = { λ s. s.faults };

    ghost written = { λ s. Some s.written };

    /// Takes the least of `piece`, the slice's length and the room left, or fails where this call is
    /// to fail or no room is left.
    fn write(&mut self, bytes: &[u8]) -> Took
        requires { 0 < length bytes.now }
        ensures answer { result ≡ next_took self.old (length bytes.now) }
        ensures after { self.new ≡ sink_after self.old result bytes.now }
        ensures content { Writes (Some self.old.written) (Some self.new.written) result bytes.now }
        ensures failed { result ≡ Took.Failed → Rose self.old.faults self.new.faults }
        ensures kept { result ≢ Took.Failed → self.new.faults ≡ self.old.faults }
        ensures count { self.old.faults ≤ self.new.faults }
    {
        self.calls = self.calls.saturating_add(1);
        if self.fails.contains(&self.calls) || self.room <= self.bytes.len() {
            self.faults = self.faults.saturating_add(1);
            return Took::Failed;
        }
        let count = self
            .piece
            .min(bytes.len())
            .min(self.room - self.bytes.len());
        self.bytes.extend_from_slice(&bytes[..count]).unwrap();
        Took::Bytes(count)
    }
}
