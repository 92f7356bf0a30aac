//! What is proved of extracted circuits, and of the finder of causal flows.

ghost use Rattle.mc_extract.specs.Laws.{ChosenCausalFlowsAreFlows, ChosenCausalFlowsAreUnique};
ghost use Rattle.mc_extract.specs.Laws.{ChosenStuckSetsAreUnique, CircuitsAreExtracted};
ghost use Rattle.mc_extract.specs.Laws.{ExtractedCircuitHasTable, ExtractedCircuitScale};
ghost use Rattle.mc_extract.specs.Laws.{ExtractedCircuitsAreValid, ExtractedGatesAreEdges};
ghost use Rattle.mc_extract.specs.Laws.{FirstMembersAreNexts, RoundsFindCausalFlow};

use mc_graph::{graphs_keep_zero_branch, graphs_without_constants};

/// Whatever the causal flow, the table of the extracted circuit is the zero branch of the graph,
/// doubled for each fixed correction.
pub fn extracted_circuit_has_table()
    ensures { ExtractedCircuitHasTable }
{}

/// The scale of the extracted circuit is the number of vertices that are no inputs, and two for
/// each fixed correction.
pub fn extracted_circuit_scale()
    ensures { ExtractedCircuitScale }
{}

/// The extracted circuit is valid.
pub fn extracted_circuits_are_valid()
    ensures { ExtractedCircuitsAreValid }
{}

/// The extracted circuit has a gate for each edge of the graph and two for each fixed correction.
pub fn extracted_gates_are_edges()
    ensures { ExtractedGatesAreEdges }
{}

/// Whatever the causal flow of a pattern's graph, the table of the extracted circuit is the zero
/// branch of the pattern, up to one phase and doublings.
pub fn circuits_are_extracted()
    ensures { CircuitsAreExtracted }
{
    graphs_keep_zero_branch();
    graphs_without_constants();
}

/// The first members of the sets of a causal flow are its nexts.
pub fn first_members_are_nexts()
    ensures { FirstMembersAreNexts }
{}

/// The rounds of the finder give the chosen causal flow where there is one, and else the chosen
/// stuck set.
pub fn rounds_find_causal_flow()
    ensures { RoundsFindCausalFlow }
{}

/// A chosen causal flow is a causal flow.
pub fn chosen_causal_flows_are_flows()
    ensures { ChosenCausalFlowsAreFlows }
{}

/// There is at most one chosen causal flow.
pub fn chosen_causal_flows_are_unique()
    ensures { ChosenCausalFlowsAreUnique }
{}

/// There is at most one chosen stuck set.
pub fn chosen_stuck_sets_are_unique()
    ensures { ChosenStuckSetsAreUnique }
{}
