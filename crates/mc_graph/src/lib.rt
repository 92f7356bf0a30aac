//! Open graphs, those of patterns, and what is found of them.
//!
//! An open graph is seen as the model's record of names, inputs, outputs, edges, base angles and fixed corrections.
#![tactic(auto)]

mod builder;
mod end;
mod fixed;
mod flow;
mod graph;
mod label;
mod laws;
mod links;
mod of_pattern;
mod order;
mod outputs;
mod parts;
mod refuter;
mod stuck;
mod sums;
#[cfg(test)]
mod tests;
mod zero;

pub use builder::{GraphBuilder, GraphEnd};
pub use end::RowEnd;
pub use fixed::Fixed;
pub use flow::{FlowRow, GFlow};
pub use graph::OpenGraph;
pub use laws::{graphs_keep_zero_branch, graphs_without_constants, zero_patterns_are_valid};
pub use mc_angle::Angle;
pub use mc_names::{Name, Names};
pub use mc_signal::QSet;
pub use of_pattern::graph_of;
pub use order::order_of;
pub use parts::{pattern_of, push_measurement, state_of};
pub use refuter::Refuter;
pub use stuck::Stuck;
pub use zero::zero_pattern;
