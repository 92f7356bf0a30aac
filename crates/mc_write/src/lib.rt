//! Writing a text word by word, as every kind of section is printed.
#![tactic(auto)]

mod names;
#[cfg(test)]
mod tests;
mod words;

pub use names::{add_name, add_names, add_names_between};
pub use words::{add_number, add_word, end_line, start_line};
