// Sources and sinks in memory.
use no_memory::NoMemory;
use source_sink::{MemSink, MemSource, SureSource};
use std::alloc::{AllocError, Global};

/// A sink that takes one byte a call, whose calls with these numbers fail.
pub fn sink(alloc: Global, capacity: usize, failing: &[u32]) -> Result<MemSink, NoMemory> {
    MemSink::new(alloc, capacity, failing.to_vec(alloc)?, 1)
}

/// A source of these bytes that never fails.
pub fn source(alloc: Global, bytes: &[u8]) -> Result<SureSource, AllocError> {
    Ok(SureSource::new(bytes.to_vec(alloc)?))
}

/// A source of these bytes that gives one byte a call, whose calls with these numbers fail.
pub fn slow_source(alloc: Global, bytes: &[u8], failing: &[u32]) -> Result<MemSource, NoMemory> {
    let failing = failing.to_vec(alloc)?;
    Ok(MemSource::new(bytes.to_vec(alloc)?, failing, 1))
}
