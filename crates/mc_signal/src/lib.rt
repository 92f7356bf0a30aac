//! Signals: sets of measured qubits, which say by the sum of their outcomes whether a correction
//! acts (Danos, Kashefi and Panangaden 2007).
//!
//! A set is seen as the rising list of its members, a signal as the model's record of members and
//! constant, outcomes as a list of bits.
#![tactic(auto)]

mod outcomes;
mod set;
mod signal;
#[cfg(test)]
mod tests;

pub use outcomes::Outcomes;
pub use set::QSet;
pub use signal::Signal;
