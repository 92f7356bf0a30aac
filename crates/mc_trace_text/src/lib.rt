//! The texts of derivations, which stand behind a pattern.
//!
//! A line `u NUMBER WORD` says a use of a rule: the place of the first command concerned, and the word of the rule. `rule` has
//! the words, `section` what is kept of the lines that are read, `read` how a section is read, `print` the canonical text, and
//! `laws` what is proved of texts.
#![tactic(auto)]

mod laws;
mod print;
mod read;
mod rule;
mod section;
#[cfg(test)]
mod tests;

pub use laws::{trace_texts_are_read, trace_texts_differ};
pub use print::print_trace;
pub use read::read_trace;
