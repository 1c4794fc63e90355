// Sources and sinks over std's readers and writers, such as a program's standard streams.
ghost use Rattle.std.specs.Prelude.{◌≡◌, ℕ, ◌<◌, None, length};
ghost use Rattle.source_sink.specs.Reading.{Reads};
ghost use Rattle.source_sink.specs.Standard.{count_after_read, count_after_write};
ghost use Rattle.source_sink.specs.Writing.{Writes};

use crate::{Got, Put, Sink, Source};
use std::io::{Read, Write};
use std::marker::Model;

/// A reader of std, as a source. It tells nothing of its bytes; a clause sees the count of its faults.
#[derive(Drop)]
pub struct StdSource<R> {
    inner: R,
    faults: u64,
}

impl<R> Model for StdSource<R> {
    ghost Value = { ℕ };

    ghost view = { λ s. s.faults };
}

impl<R> StdSource<R> {
    /// Reads what the reader gives.
    pub fn new(inner: R) -> StdSource<R>
        ensures { result ≡ 0 }
    {
        StdSource { inner, faults: 0 }
    }
}

impl<R: Read> Source for StdSource<R> {
    ghost left = { λ _. None };

    ghost faults = { λ count. count };

    fn read(&mut self, buffer: &mut [u8]) -> Got
        requires { 0 < length buffer.old }
        ensures reads { Reads None None self.old self.new buffer.new result }
        ensures count { self.new ≡ count_after_read self.old result }
    {
        match self.inner.read(buffer) {
            Ok(0) => Got::End,
            Ok(count) => Got::Bytes(count),
            Err(_) => {
                self.faults = self.faults.saturating_add(1);
                Got::Failed
            }
        }
    }
}

/// A writer of std, as a sink. It tells nothing of its bytes; a clause sees the count of its faults.
#[derive(Drop)]
pub struct StdSink<W> {
    inner: W,
    faults: u64,
}

impl<W> Model for StdSink<W> {
    ghost Value = { ℕ };

    ghost view = { λ s. s.faults };
}

impl<W> StdSink<W> {
    /// Writes to the writer.
    pub fn new(inner: W) -> StdSink<W>
        ensures { result ≡ 0 }
    {
        StdSink { inner, faults: 0 }
    }
}

impl<W: Write> Sink for StdSink<W> {
    ghost held = { λ _. None };

    ghost faults = { λ count. count };

    fn write(&mut self, piece: &[u8]) -> Put
        requires { 0 < length piece.now }
        ensures writes { Writes None None self.old self.new piece.now result }
        ensures count { self.new ≡ count_after_write self.old result }
    {
        match self.inner.write(piece) {
            Ok(count) if count > 0 => Put::Took(count),
            _ => {
                self.faults = self.faults.saturating_add(1);
                Put::Failed
            }
        }
    }
}
