//! Commutative rings whose values are seen as lists of whole numbers, with the laws that generic
//! code rests on; the ring of two elements; matrices over any ring.
#![tactic(auto)]

mod bit;
mod matrix;
#[cfg(test)]
mod tests;
mod traits;

pub use bit::Bit;
pub use matrix::{MatEnd, Matrix};
pub use traits::{PhaseRing, Ring};
