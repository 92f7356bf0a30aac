//! Sections of rows: each line says something of names that a section before has defined, as the rows of a change, of a
//! flow, of a refuter, of a stuck set or of a bound do.
//!
//! # How a kind is added
//!
//! 1. Its definitions: a `Kind` (`specs/Judge.antt`), which is the table of record words that may follow one another, the
//!    [`Shape`] of the row of each (`end` is `Bare`), whether `!` may stand in a set, and up to three rules of its own:
//!    of a record word by the rows before, of the name of a row, and of a member of a set. They speak of rows and numbers,
//!    not of words. Its rules are then `row_rules kind names`, and its value is a map over `rows_in shape names lines`.
//! 2. A struct that keeps the rows, with an `impl` of [`Rows`]: the table and the rules as code, `holds` (these are the rows
//!    that are kept) and `push`. What is known of a row there is `Passes`: no rule is against
//!    its record word, its name and its members.
//! 3. A reader of a few lines: [`RowReader::new`], then `mc_text::read_section`; what is kept is `reader.kind`. Its contract
//!    follows from that of `read_section`: `clean` and `err` speak of `row_rules`, and `read` gives `holds` of the rows; with
//!    `ended` of what is kept, the kind's rule of a record word was not against `end`.
//! 4. A printer: a header, [`print_row`] for each row with its [`Parts`], [`print_end`].
//! 5. Its law: [`rows_are_read`] says that the lines of rows that are sound (`AreSound`) are read without a fault and give
//!    the rows back, so what is left is that the value's rows are sound. [`rows_are_within`] says that names and members
//!    are below the number of names.
//!
//! The place of each fault, the order of the common rules before the kind's own, what is listed twice, sets as numbers, and
//! `!` where the kind permits it are proved here, once.
#![tactic(auto)]

mod kind;
mod laws;
mod print;
mod reader;
mod row;
mod steps;
#[cfg(test)]
mod tests;

pub use kind::Rows;
pub use laws::{rows_are_read, rows_are_within};
pub use print::{Parts, add_set, print_end, print_row};
pub use reader::RowReader;
pub use row::{Role, Row, Shape};
