//! Derivations by the rewriting rules of patterns (Danos, Kashefi and Panangaden 2007): where a use
//! of a rule leads, what it costs until the standard form is reached, and what a list of uses
//! breaks that is no derivation of it. Each law is on the contract of a function that does nothing.
#![tactic(auto)]

mod laws;

pub use laws::{derivations_stay_short, traces_are_judged_once};
