// Where a program's bytes come from and go to: sources and sinks, in memory and over std's readers and writers.
// Contract: what a call gave or took, what is left or held after it, and when the count of faults rose.
#![tactic(auto)]

mod memory;
mod reading;
mod standard;
mod sure;
mod writing;

pub use memory::{MemSink, MemSource};
pub use reading::{Got, ReadFault, Source, read_all};
pub use standard::{StdSink, StdSource};
pub use sure::{SureSink, SureSource};
pub use writing::{Put, Sink, WriteFault, write_all};
