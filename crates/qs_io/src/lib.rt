//! Sources, from which a program reads its bytes, sinks, to which it writes them, and the gate of its workers.
//!
//! A source or a sink counts its faults, and a call on it fails exactly where it counts one. Every source tells the
//! bytes that it has given. Over these two traits stand `read_all` and `write_all`, which move a whole text.
//! `MemSource`, `SureSource` and `MemSink` hold their bytes in memory and tell them. `StdSource` and `StdSink` stand
//! over std's readers and writers, and tell neither what is to come nor what was written; a `TracedSink` over a sink
//! tells what its own writes took. A `Gate` is what the workers of a run pass with each arc that they claim; an
//! `OpenGate` holds nobody.
#![tactic(auto)]

mod device;
mod failing;
mod gate;
mod memory_sink;
mod memory_source;
mod standard;
mod trace;
mod traced_sink;
mod transfer;

pub use device::{Failed, Sink, Source};
pub use gate::{Gate, OpenGate};
pub use memory_sink::MemSink;
pub use memory_source::{MemSource, SureSource};
pub use standard::{StdSink, StdSource};
pub use std::alloc::AllocError as Memory;
pub use trace::Trace;
pub use traced_sink::TracedSink;
pub use transfer::{
    MAX_TEXT_BYTES, ReadEnd, WriteFault, max_text_bytes_is_the_most, read_all, write_all,
};
