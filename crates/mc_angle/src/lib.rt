//! Angles in whole steps of a turn, and the words that spell angles and numbers.
#![tactic(auto)]

mod angle;
mod number;
#[cfg(test)]
mod tests;

pub use angle::Angle;
pub use number::read_number;
