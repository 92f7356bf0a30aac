//! Flows, refuters, stuck sets and bounds of depth that exist.

ghost use Rattle.mc_chosen.specs.Laws.{CausalFlowsOrStuckSetsExist, ChosenFlowsHaveBounds};
ghost use Rattle.mc_chosen.specs.Laws.{FlowsOrRefutersExist};

use mc_least::{chosen_bounds_exist, chosen_flows_are_earliest};

/// Every open graph has a chosen flow, or it has no flow and a chosen refuter (Mhalla and Perdrix 2008).
pub fn flows_or_refuters_exist()
    ensures { FlowsOrRefutersExist }
{}

/// Every open graph has a chosen causal flow, or it has no causal flow and a chosen stuck set (Mhalla and Perdrix 2008).
pub fn causal_flows_or_stuck_sets_exist()
    ensures { CausalFlowsOrStuckSetsExist }
{}

/// The chosen flow of an open graph has a chosen bound of depth: its layers, and the least set for each layer below the depth
/// and each vertex above it.
pub fn chosen_flows_have_bounds()
    ensures { ChosenFlowsHaveBounds }
{
    chosen_bounds_exist();
    chosen_flows_are_earliest();
}
