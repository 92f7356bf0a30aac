//! Lists of the numbers of qubits, wires or vertices.
#![tactic(auto)]

mod choose;
mod once;
#[cfg(test)]
mod tests;

pub use choose::push_if;
pub use once::{count, lists_once};
