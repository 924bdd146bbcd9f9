//! Sources and sinks of bytes, as a simulator needs them.
//!
//! A [`Source`] gives bytes and a [`Sink`] takes them. Both count the faults of the device that they stand for, so that an
//! answer that speaks of a fault can be tied to one. [`read_all`] and [`put_all`] move whole texts.
//!
//! * `reading`: the trait [`Source`], and reading to the end.
//! * `writing`: the trait [`Sink`], and writing to the end.
//! * `sure`: a source and a sink in memory that never fail.
//! * `mem_source`, `mem_sink`: a source and a sink in memory that fail at chosen calls, for tests.
//! * `streams`: adapters of std's readers and writers, the trusted edge.
#![tactic(auto)]

mod gather;
mod mem_sink;
mod mem_source;
mod moves;
mod reading;
mod streams;
mod sure;
mod writing;

pub use mem_sink::MemSink;
pub use mem_source::MemSource;
pub use reading::{Failed, LoadErr, Source, read_all};
pub use streams::{StdSink, StdSource};
pub use sure::{SureSink, SureSource};
pub use writing::{Sink, SinkErr, put_all};
