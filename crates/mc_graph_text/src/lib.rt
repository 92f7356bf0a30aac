//! The text of open graphs.
#![tactic(auto)]

mod laws;
mod print;
#[cfg(test)]
mod print_tests;
mod read;
mod reader;
mod section;
mod steps;
#[cfg(test)]
mod tests;
mod valid;
mod words;

pub use laws::{canonical_texts_are_read, canonical_texts_differ};
pub use print::print_graph;
pub use read::read_graph;
pub use valid::clean_texts_spell_graphs;
