// Sources and sinks in memory whose calls fail by a plan.
ghost use Rattle.std.specs.Prelude.{◌≡◌, ◌<◌, ◌≤◌, min, Some, [], length, take, drop, vec_capacity, IfOk, IsTrue};
ghost use Rattle.source_sink.specs.Memory.{Plan, MemLeft, MemHeld, is_due, after_call, got_of, after_read, put_of, after_write};
ghost use Rattle.source_sink.specs.Outside.{Rose};
ghost use Rattle.source_sink.specs.Reading.{Reads};
ghost use Rattle.source_sink.specs.Writing.{Writes};

use crate::{Got, Put, Sink, Source};
use no_memory::NoMemory;
use std::alloc::Global;
use std::marker::Model;

/// Which calls fail, and how many bytes a call moves at most.
#[derive(Drop)]
struct Calls {
    made: u64,
    failing: Vec<u32>,
    piece: usize,
    faults: u64,
}

impl Model for Calls {
    ghost Value = { Plan };

    ghost view = { λ c. record { calls = c.made; failing = c.failing.items; piece = c.piece; faults = c.faults } };

    ghost invariant = { λ c. 0 < c.piece };
}

impl Calls {
    fn new(failing: Vec<u32>, piece: usize) -> Calls
        requires { 0 < piece }
        ensures { result ≡ record { calls = 0; failing = failing.items; piece = piece; faults = 0 } }
    {
        Calls {
            made: 0,
            failing,
            piece,
            faults: 0,
        }
    }

    fn is_due(&self) -> bool
        ensures { result ≡ is_due self.now }
    {
        let number = self.made.saturating_add(1);
        self.failing
            .iter()
            .any(|failing| u64::from(*failing) == number)
    }

    fn piece(&self) -> usize
        ensures value { result ≡ self.now.piece }
        ensures some { 0 < result }
    {
        self.piece
    }

    fn faults(&self) -> u64
        ensures { result ≡ self.now.faults }
    {
        self.faults
    }

    fn count(&mut self, fails: bool)
        ensures after { self.new ≡ after_call self.old fails }
        ensures later { self.old.faults ≤ self.new.faults }
        ensures rose { IsTrue fails → Rose self.old.faults self.new.faults }
    {
        self.made = self.made.saturating_add(1);
        if fails {
            self.faults = self.faults.saturating_add(1);
        }
    }
}

/// Copies the first bytes, as many as there are, as there is room for, and as `most` says.
pub(crate) fn copy_front(from: &[u8], most: usize, to: &mut [u8]) -> usize
    ensures count { result ≡ min (min (length to.old) most) (length from.now) }
    ensures front { take result to.new ≡ take result from.now }
{
    let count = to.len().min(most).min(from.len());
    to[..count].copy_from_slice(&from[..count]);
    count
}

/// Bytes in memory that are read in pieces, with calls that fail by a plan.
#[derive(Drop)]
pub struct MemSource {
    bytes: Vec<u8>,
    at: usize,
    calls: Calls,
}

impl Model for MemSource {
    ghost Value = { MemLeft };

    ghost view = { λ s. record { left = drop s.at s.bytes.items; plan = s.calls } };

    ghost invariant = { λ s. s.at ≤ length s.bytes.items };
}

impl MemSource {
    /// All of the bytes are left. `failing` has the numbers of the calls that fail, counted from 1, and no call gives
    /// more than `piece` bytes.
    pub fn new(bytes: Vec<u8>, failing: Vec<u32>, piece: usize) -> MemSource
        requires { 0 < piece }
        ensures { result ≡ record {
          left = bytes.items;
          plan = record { calls = 0; failing = failing.items; piece = piece; faults = 0 };
        } }
    {
        MemSource {
            bytes,
            at: 0,
            calls: Calls::new(failing, piece),
        }
    }

    /// How many faults were counted.
    pub fn faults(&self) -> u64
        ensures { result ≡ self.now.plan.faults }
    {
        self.calls.faults()
    }
}

impl Source for MemSource {
    ghost left = { λ s. Some s.left };

    ghost faults = { λ s. s.plan.faults };

    fn read(&mut self, buffer: &mut [u8]) -> Got
        requires { 0 < length buffer.old }
        ensures reads { Reads (Some self.old.left) (Some self.new.left) self.old.plan.faults self.new.plan.faults
            buffer.new result }
        ensures answer { result ≡ got_of self.old (length buffer.old) }
        ensures after { self.new ≡ after_read self.old (length buffer.old) }
    {
        let fails = self.calls.is_due();
        self.calls.count(fails);
        if fails {
            return Got::Failed;
        }
        let count = copy_front(&self.bytes[self.at..], self.calls.piece(), buffer);
        if count == 0 {
            return Got::End;
        }
        self.at += count;
        Got::Bytes(count)
    }
}

/// Bytes in memory that are written in pieces up to a capacity, with calls that fail by a plan.
#[derive(Drop)]
pub struct MemSink {
    bytes: Vec<u8>,
    capacity: usize,
    calls: Calls,
}

impl Model for MemSink {
    ghost Value = { MemHeld };

    ghost view = { λ s. record { bytes = s.bytes.items; capacity = s.capacity; plan = s.calls } };

    ghost invariant = { λ s. (length s.bytes.items ≤ s.capacity) × (s.capacity ≤ vec_capacity s.bytes) };
}

impl MemSink {
    /// Nothing is held. `failing` has the numbers of the calls that fail, counted from 1, no call takes more than
    /// `piece` bytes, and a write to a sink that holds `capacity` bytes fails.
    pub fn new(
        alloc: Global,
        capacity: usize,
        failing: Vec<u32>,
        piece: usize,
    ) -> Result<MemSink, NoMemory>
        requires { 0 < piece }
        ensures { IfOk result (λ s. s ≡ record {
          bytes = [];
          capacity = capacity;
          plan = record { calls = 0; failing = failing.items; piece = piece; faults = 0 };
        }) }
    {
        Ok(MemSink {
            bytes: Vec::with_capacity(alloc, capacity)?,
            capacity,
            calls: Calls::new(failing, piece),
        })
    }

    /// The bytes held.
    pub fn bytes(&self) -> &[u8]
        ensures { result.now ≡ self.now.bytes }
    {
        self.bytes.as_slice()
    }

    /// How many faults were counted.
    pub fn faults(&self) -> u64
        ensures { result ≡ self.now.plan.faults }
    {
        self.calls.faults()
    }
}

impl Sink for MemSink {
    ghost held = { λ s. Some s.bytes };

    ghost faults = { λ s. s.plan.faults };

    fn write(&mut self, piece: &[u8]) -> Put
        requires { 0 < length piece.now }
        ensures writes { Writes (Some self.old.bytes) (Some self.new.bytes) self.old.plan.faults self.new.plan.faults
            piece.now result }
        ensures answer { result ≡ put_of self.old (length piece.now) }
        ensures after { self.new ≡ after_write self.old piece.now }
    {
        let room = self.capacity - self.bytes.len();
        let count = piece.len().min(self.calls.piece()).min(room);
        let fails = self.calls.is_due() || count == 0;
        self.calls.count(fails);
        if fails {
            return Put::Failed;
        }
        self.bytes.extend_from_slice(&piece[..count]).unwrap();
        Put::Took(count)
    }
}
