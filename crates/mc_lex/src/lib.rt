//! Texts as lines of words: each word is a slice of its text, with its line and column.
//!
//! - [`Words`] goes through the tokens of a text, line by line, in order.
//! - [`Kind`] is the kind of a section, which its header's first word names.
//! - [`TextEnd`] says why a text is not what it is to be.
#![tactic(auto)]

mod bytes;
mod end;
mod kind;
mod part;
#[cfg(test)]
mod tests;
mod token;
mod words;

pub use end::TextEnd;
pub use kind::Kind;
pub use token::{Token, Word};
pub use words::Words;
