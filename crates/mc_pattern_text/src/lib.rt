//! The text of patterns: in version 1, and in version 2, where signals may have the constant.
#![tactic(auto)]

mod laws;
mod operands;
mod print;
mod read;
mod reader;
mod section;
mod steps;
#[cfg(test)]
mod tests;

pub use laws::{canonical_texts_are_read, canonical_texts_differ, clean_texts_spell_patterns};
pub use print::print_pattern;
pub use read::read_pattern;
