//! Patterns that are made from generalised flows of open graphs (Browne, Kashefi, Mhalla and
//! Perdrix 2007).
#![tactic(auto)]

mod laws;
mod make;

pub use laws::{
    chosen_flows_are_least_deep, chosen_patterns_fix_z_on_outputs,
    chosen_patterns_have_no_second_signals, dependence_within_layers,
    flow_patterns_are_deterministic, flow_patterns_are_made, flow_patterns_are_valid,
    flow_patterns_fit, flow_patterns_have_no_constants, flow_patterns_keep_scale,
    measuring_order_falls, zero_branch_of_flow_pattern,
};
pub use make::make_pattern;
