//! Two patterns as one: the second behind the first, or beside it; products of tables.
#![tactic(auto)]

mod chains;
mod laws;
mod limit;
mod naming;
mod placing;
mod products;
mod sides;
#[cfg(test)]
mod tests;

pub use chains::chain;
pub use laws::{
    chains_are_patterns, chains_are_valid, chains_multiply, outcomes_join, scales_add,
    sides_are_patterns, sides_are_valid, sides_multiply, sums_run_over_numbers,
};
pub use limit::ComposeEnd;
pub use products::product;
pub use sides::beside;
