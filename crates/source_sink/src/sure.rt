// Sources and sinks in memory that never fail.
ghost use Rattle.std.specs.Prelude.{◌≡◌, ℕ, ◌<◌, ◌≤◌, min, List, Some, [], length, drop, vec_capacity, false, IfOk};
ghost use Rattle.source_sink.specs.Memory.{got_of_count};
ghost use Rattle.source_sink.specs.Reading.{Reads};
ghost use Rattle.source_sink.specs.Sure.{Kept, told_of, kept_after};
ghost use Rattle.source_sink.specs.Writing.{Writes};
ghost use Rattle.source_sink.specs.declared.writing.Put.TheVariants.{Took};

use crate::memory::copy_front;
use crate::{Got, Put, Sink, Source};
use no_memory::NoMemory;
use std::alloc::Global;
use std::marker::Model;

/// Bytes in memory that can always be read.
#[derive(Drop)]
pub struct SureSource {
    bytes: Vec<u8>,
    at: usize,
}

impl Model for SureSource {
    ghost Value = { List ℕ };

    ghost view = { λ s. drop s.at s.bytes.items };

    ghost invariant = { λ s. s.at ≤ length s.bytes.items };
}

impl SureSource {
    /// All of the bytes are left.
    pub fn new(bytes: Vec<u8>) -> SureSource
        ensures { result ≡ bytes.items }
    {
        SureSource { bytes, at: 0 }
    }
}

impl Source for SureSource {
    ghost left = { λ bytes. Some bytes };

    ghost faults = { λ _. 0 };

    fn read(&mut self, buffer: &mut [u8]) -> Got
        requires { 0 < length buffer.old }
        ensures reads { Reads (Some self.old) (Some self.new) 0 0 buffer.new result }
        ensures answer { result ≡ got_of_count (min (length buffer.old) (length self.old)) }
    {
        let count = copy_front(&self.bytes[self.at..], buffer.len(), buffer);
        if count == 0 {
            return Got::End;
        }
        self.at += count;
        Got::Bytes(count)
    }
}

/// Bytes in memory that can always be written: what there is no room for is dropped.
#[derive(Drop)]
pub struct SureSink {
    bytes: Vec<u8>,
    capacity: usize,
    has_dropped: bool,
}

impl Model for SureSink {
    ghost Value = { Kept };

    ghost view = { λ s. record { bytes = s.bytes.items; capacity = s.capacity; has_dropped = s.has_dropped } };

    ghost invariant = { λ s. (length s.bytes.items ≤ s.capacity) × (s.capacity ≤ vec_capacity s.bytes) };
}

impl SureSink {
    /// Nothing is held, and there is room for `capacity` bytes.
    pub fn new(alloc: Global, capacity: usize) -> Result<SureSink, NoMemory>
        ensures { IfOk result (λ s. s ≡ record { bytes = []; capacity = capacity; has_dropped = false }) }
    {
        Ok(SureSink {
            bytes: Vec::with_capacity(alloc, capacity)?,
            capacity,
            has_dropped: false,
        })
    }

    /// The bytes kept.
    pub fn bytes(&self) -> &[u8]
        ensures { result.now ≡ self.now.bytes }
    {
        self.bytes.as_slice()
    }
}

impl Sink for SureSink {
    ghost held = { told_of };

    ghost faults = { λ _. 0 };

    fn write(&mut self, piece: &[u8]) -> Put
        requires { 0 < length piece.now }
        ensures writes { Writes (told_of self.old) (told_of self.new) 0 0 piece.now result }
        ensures answer { result ≡ Took (length piece.now) }
        ensures after { self.new ≡ kept_after self.old piece.now }
    {
        let room = self.capacity - self.bytes.len();
        self.has_dropped = self.has_dropped || room < piece.len();
        let count = piece.len().min(room);
        self.bytes.extend_from_slice(&piece[..count]).unwrap();
        Put::Took(piece.len())
    }
}
