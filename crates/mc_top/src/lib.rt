//! All that the command does: from its words and the bytes that come in to the bytes that go out.
//!
//! A command is a file here and one in `specs`: `translate`, `print`, `standard`, `shift`, `run`, `branch`, which is `run` with
//! outcomes, `graph`, `flow`, `check`, `make`, `extract`, `compile`, `trace`, `least`, `chain`, `beside`, `lower` and `sample`.
//! `task` lists those that are asked of a text, and `request` the sample too. `top` reads the source, has the answer made, writes
//! it and notes how it ended.
#![tactic(auto)]

mod answer;
mod beside;
mod branch;
mod chain;
mod check;
mod compile;
mod extract;
mod flow;
mod graph;
mod graph_source;
mod laws;
mod least;
mod lower;
mod make;
mod note;
mod print;
mod request;
mod run;
mod sample;
mod shift;
mod source;
mod standard;
mod status;
mod task;
mod top;
mod trace;
mod translate;
mod two_patterns;

pub use laws::{bounds_mean_depths, findings_mean_flows, one_thing_is_due, something_is_due};
pub use mc_document::{Document, Takes, read_document, turn_of};
pub use status::Status;
pub use task::Task;
pub use top::{serve, write_note};
