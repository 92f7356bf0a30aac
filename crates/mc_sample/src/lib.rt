//! Sample circuits: as many `J` gates as are asked for, each with a CZ behind it, by a linear
//! congruential generator.
#![tactic(auto)]

mod generator;
#[cfg(test)]
mod tests;

pub use generator::sample;
