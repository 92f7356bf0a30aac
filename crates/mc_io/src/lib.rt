//! Sources and sinks of bytes, which count their faults.
//!
//! A [`Source`] gives bytes and a [`Sink`] takes them. A contract sees what a source has left and what
//! a sink was given, where they tell it, and a count of faults that never falls: a call fails only
//! where the count rose.
//! [`read_all`] and [`write_all`] work over any of them.
//!
//! - [`HonestSource`] and [`HonestSink`] are in memory and never fail.
//! - [`MemSource`] and [`MemSink`] are in memory, work in pieces, and fail at the calls that they are
//!   told.
//! - [`StdSource`] and [`StdSink`] are std's readers and writers. They tell no bytes.
#![tactic(auto)]

mod end;
mod honest;
mod mem_sink;
mod mem_source;
mod plan;
mod source_sink;
mod std_edge;
mod store;
#[cfg(test)]
mod tests;
mod unread;
mod whole;

pub use end::{Failed, ReadEnd};
pub use honest::{HonestSink, HonestSource};
pub use mem_sink::MemSink;
pub use mem_source::MemSource;
pub use source_sink::{Sink, Source};
pub use std_edge::{StdSink, StdSource};
pub use whole::{read_all, write_all};
