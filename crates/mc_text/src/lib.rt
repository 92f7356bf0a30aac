//! Sections of a text: the one way in which every kind of section is read.
//!
//! A kind of section implements [`Section`]: its rules judge each word, and the end of each line,
//! by the lines before and the words before on the line. [`read_section`] answers the first fault or
//! limit, or takes the whole section. The words, names, numbers and angles that several kinds share
//! are judged here too.
#![tactic(auto)]

mod fault;
mod form;
mod head;
mod header;
mod line;
mod point;
mod print;
mod rule;
mod section;
#[cfg(test)]
mod tests;

pub use fault::{Fault, Stop};
pub use form::{Form, Turning};
pub use head::Head;
pub use header::{Header, Kinds, read_header};
pub use point::{Mark, Point};
pub use print::{headers_are_read, print_header};
pub use rule::{angle, define, fixed, known, number, unlisted};
pub use section::{Section, read_section};
