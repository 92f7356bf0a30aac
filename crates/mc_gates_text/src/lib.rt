//! The text of gate lists.
#![tactic(auto)]

mod laws;
mod print;
mod read;
mod reader;
mod section;
mod steps;
#[cfg(test)]
mod tests;
mod word;

pub use laws::{clean_texts_spell_gates, gate_texts_are_read, gate_texts_differ};
pub use print::print_gates;
pub use read::read_gates;
