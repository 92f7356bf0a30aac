//! The texts of tables of amplitudes: of one circuit, of one branch of a pattern, and of all of
//! them.
#![tactic(auto)]

mod bits;
mod laws;
mod outcomes;
mod print;
mod report;
mod run;
#[cfg(test)]
mod tests;

pub use laws::{amplitudes_are_reduced, phases_are_least};
pub use print::{print_branch, print_table};
pub use report::print_report;
pub use run::{run_all_text, run_branch_text, run_circuit_text};
