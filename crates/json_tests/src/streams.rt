// Sources and sinks: calls that fail by a plan, and std's readers and writers.
use no_memory::NoMemory;
use source_sink::{
    Got, MemSink, MemSource, Put, ReadFault, Sink, Source, StdSink, StdSource, SureSink,
    SureSource, WriteFault, read_all, write_all,
};
use std::alloc::{AllocError, Global};
use std::io;
use std::io::{ErrorKind, Read, Write};
use std::process::Abort;
use std::test::Fail;

/// A device that fails at each call.
#[derive(Drop)]
struct Broken;

impl Read for Broken {
    fn read(&mut self, _buffer: &mut [u8]) -> io::Result<usize> {
        Err(io::Error::from(ErrorKind::Other))
    }
}

impl Write for Broken {
    fn write(&mut self, _piece: &[u8]) -> io::Result<usize> {
        Err(io::Error::from(ErrorKind::Other))
    }

    fn flush(&mut self) -> io::Result<()> {
        Ok(())
    }
}

/// A device that takes one byte a call.
#[derive(Drop)]
struct Slow {
    written: Vec<u8>,
}

impl Write for Slow {
    fn write(&mut self, piece: &[u8]) -> io::Result<usize> {
        let Some(first) = piece.first() else {
            return Ok(0);
        };
        match self.written.push(*first) {
            Ok(()) => Ok(1),
            Err(_) => Err(io::Error::from(ErrorKind::OutOfMemory)),
        }
    }

    fn flush(&mut self) -> io::Result<()> {
        Ok(())
    }
}

#[test]
fn std_readers_are_sources(rt: HostRuntime) {
    let mut buffer = [0u8; 2];
    let mut source = StdSource::new(b"abc".as_slice());
    assert_eq!(rt; source.read(&mut buffer), Got::Bytes(2));
    assert_eq!(rt; buffer, *b"ab");
    assert_eq!(rt; source.read(&mut buffer), Got::Bytes(1));
    assert_eq!(rt; source.read(&mut buffer), Got::End);
    assert_eq!(rt; StdSource::new(Broken).read(&mut buffer), Got::Failed);
}

#[test]
fn std_writers_are_sinks(rt: HostRuntime) {
    let mut written = Vec::new(rt.alloc());
    let mut sink = StdSink::new(&mut written);
    assert_eq!(rt; sink.write(b"abc"), Put::Took(3));
    assert_eq!(rt; written.as_slice(), b"abc".as_slice());
    assert_eq!(rt; StdSink::new(Broken).write(b"abc"), Put::Failed);
}

#[test]
fn a_writer_of_one_byte_a_call_gets_all(rt: HostRuntime) {
    let mut slow = Slow {
        written: Vec::new(rt.alloc()),
    };
    let mut sink = StdSink::new(&mut slow);
    assert_eq!(rt; write_all(&mut sink, b"abc"), Ok(()));
    assert_eq!(rt; slow.written.as_slice(), b"abc".as_slice());
}

/// A source of four bytes, three a call, whose second call fails.
fn failing_source(alloc: Global) -> Result<MemSource, AllocError> {
    let failing = vec![in alloc; 2]?;
    Ok(MemSource::new(b"abcd".to_vec(alloc)?, failing, 3))
}

/// A sink with room for five bytes, two a call, whose first call fails.
fn failing_sink(alloc: Global) -> Result<MemSink, NoMemory> {
    let failing = vec![in alloc; 1]?;
    MemSink::new(alloc, 5, failing, 2)
}

fn expect_fault(rt: &impl Abort, read: Result<Vec<u8>, ReadFault>, fault: ReadFault) {
    assert_eq!(rt; read.err(), Some(fault));
}

fn expect_bytes(
    rt: &impl Abort,
    read: Result<Vec<u8>, ReadFault>,
    wanted: &[u8],
) -> Result<(), Fail> {
    let read = read?;
    assert_eq!(rt; read.as_slice(), wanted);
    Ok(())
}

fn expect_written<K: Sink>(
    rt: &impl Abort,
    sink: &mut K,
    bytes: &[u8],
    wanted: Result<(), WriteFault>,
) {
    assert_eq!(rt; write_all(sink, bytes), wanted);
}

fn expect_failing_writes(rt: &(impl Abort + AllocGlobal)) -> Result<(), Fail> {
    let mut sink = failing_sink(rt.alloc())?;
    expect_written(rt, &mut sink, b"abc", Err(WriteFault));
    expect_written(rt, &mut sink, b"abc", Ok(()));
    expect_written(rt, &mut sink, b"abc", Err(WriteFault));
    assert_eq!(rt; sink.faults(), 2);
    assert_eq!(rt; sink.bytes(), b"abcab".as_slice());
    Ok(())
}

#[test]
fn calls_of_the_plan_fail(rt: HostRuntime) -> Result<(), Fail> {
    let mut source = failing_source(rt.alloc())?;
    let first = read_all(rt.alloc(), &mut source, 4);
    expect_fault(&rt, first, ReadFault::Failed);
    assert_eq!(rt; source.faults(), 1);
    let rest = read_all(rt.alloc(), &mut source, 4);
    expect_bytes(&rt, rest, b"d")?;
    expect_failing_writes(&rt)
}

#[test]
fn sure_ones_never_fail(rt: HostRuntime) -> Result<(), Fail> {
    let mut source = SureSource::new(b"abc".to_vec(rt.alloc())?);
    let too_long = read_all(rt.alloc(), &mut source, 2);
    expect_fault(&rt, too_long, ReadFault::TooLong);
    let mut sink = SureSink::new(rt.alloc(), 4)?;
    expect_written(&rt, &mut sink, b"abc", Ok(()));
    expect_written(&rt, &mut sink, b"def", Ok(()));
    assert_eq!(rt; sink.bytes(), b"abcd".as_slice());
    Ok(())
}
