//! Measurement patterns (Danos, Kashefi and Panangaden 2007), valid by their type, and the builder that makes them.
//!
//! A pattern is seen as the model's record of names, inputs, outputs and commands, a builder as the pattern so far.
#![tactic(auto)]

mod builder;
mod change;
mod command;
mod fitting;
mod laws;
mod order;
mod outputs;
mod pattern;
mod rules;
#[cfg(test)]
mod tests;
mod whole;

pub use builder::{Builder, PushEnd};
pub use change::Change;
pub use command::Command;
pub use laws::{rules_tell_outputs, rules_tell_what_fits};
pub use mc_angle::Angle;
pub use mc_names::{Name, Names};
pub use mc_signal::{QSet, Signal};
pub use pattern::Pattern;
