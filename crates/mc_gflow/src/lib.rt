//! Generalised flows, found by layers from the outputs (Mhalla and Perdrix 2008).
#![tactic(auto)]

mod find;
mod graph;
mod insert;
mod rows;
mod take;
#[cfg(test)]
mod tests;

pub use find::{Found, find_flow};
