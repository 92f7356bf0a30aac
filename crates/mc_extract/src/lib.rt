//! Causal flows of open graphs, and circuits that are extracted by them (Danos and Kashefi 2006; Mhalla and Perdrix 2008).
#![tactic(auto)]

mod answer;
mod causal;
mod count;
mod extracted;
mod finder;
mod found;
mod gates;
mod laws;
mod named;
mod nexts;
#[cfg(test)]
mod tests;
mod wiring;

pub use answer::find_causal;
pub use causal::Causal;
pub use count::gates_to_extract;
pub use extracted::extract;
pub use laws::{
    chosen_causal_flows_are_flows, chosen_causal_flows_are_unique, chosen_stuck_sets_are_unique,
    circuits_are_extracted, extracted_circuit_has_table, extracted_circuit_scale,
    extracted_circuits_are_valid, extracted_gates_are_edges, first_members_are_nexts,
    rounds_find_causal_flow,
};
