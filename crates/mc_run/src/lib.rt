//! One dense runner: the tables of circuits and of patterns, over a vector of the live qubits'
//! amplitudes.
#![tactic(auto)]

mod branch;
mod circuit;
mod column;
mod commands;
mod gates;
mod limit;
mod place;
mod report;
mod source;
mod state;
mod step;
mod table;
#[cfg(test)]
mod tests;
mod tree;
mod vector;
mod whole;

pub use branch::run_branch;
pub use circuit::run_circuit;
pub use limit::RunEnd;
pub use report::{Report, run_all};
pub use table::Table;
