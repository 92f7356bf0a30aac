//! The translation of circuits into patterns (Danos, Kashefi and Panangaden 2007).
#![tactic(auto)]

mod gates;
mod laws;
#[cfg(test)]
mod tests;
mod translation;
mod wires;

pub use laws::{
    translation_has_counts, translation_has_scale, translation_keeps_table, translations_are_valid,
    translations_have_causal_flows, translations_have_flows, translations_have_no_constants,
};
pub use translation::{BuildEnd, translate};
