//! The compilation of circuits into patterns of least depth: translation, graph, flow, pattern from
//! the flow and standard form (Danos, Kashefi and Panangaden 2007; Browne, Kashefi, Mhalla and
//! Perdrix 2007).
#![tactic(auto)]

mod compiling;
mod laws;
#[cfg(test)]
mod tests;

pub use compiling::{Compiled, compile};
pub use laws::compiled_circuits;
pub use mc_translate::BuildEnd;
