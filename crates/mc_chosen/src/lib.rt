//! What is chosen of a graph exists: every open graph has a chosen flow or a chosen refuter, and a chosen causal flow or a
//! chosen stuck set, and a chosen flow has a chosen bound of depth. Each law stands on the contract of a function that does
//! nothing.
#![tactic(auto)]

mod laws;

pub use laws::{
    causal_flows_or_stuck_sets_exist, chosen_flows_have_bounds, flows_or_refuters_exist,
};
