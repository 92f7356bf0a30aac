//! Exact amplitudes: elements of the amplitude ring over powers of the root of two, phases between them, and their text.
#![tactic(auto)]

mod amp;
mod coordinates;
mod cyclo;
mod laws;
mod phase;
mod product;
#[cfg(test)]
mod tests;
mod text;

pub use amp::Amp;
pub use cyclo::Cyclo;
pub use laws::{root_divides_eighths, root_divides_sixteenths};
pub use phase::phase_between;
