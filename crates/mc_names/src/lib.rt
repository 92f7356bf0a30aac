//! Names of qubits, wires and vertices, and lists of distinct names, numbered in the order in which
//! they were added.
//!
//! A name is seen as its bytes, and a list of names as the list of these.
#![tactic(auto)]

mod laws;
mod name;
mod names;
#[cfg(test)]
mod tests;

pub use laws::fresh_names_are_fresh;
pub use name::Name;
pub use names::{Names, NamesEnd};
