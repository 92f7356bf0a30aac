//! Circuits of `J` and CZ gates, measurement patterns and open graphs: what they mean, and the laws
//! that several crates cite.
#![tactic(auto)]

mod laws;
mod memory;

pub use laws::{
    amplitudes_by_last_command, chosen_flows_are_flows, depth_bounds_hold, edges_count_twice,
    elements_are_a_ring, refuters_exclude_flows, root_squares_to_two,
    stuck_sets_exclude_causal_flows,
};
pub use memory::Memory;
