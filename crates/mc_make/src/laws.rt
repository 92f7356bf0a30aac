//! What is proved of the patterns that are made from flows.

ghost use Rattle.mc_make.specs.Laws.{ChosenFlowsAreLeastDeep, ChosenPatternsFixZOnOutputs};
ghost use Rattle.mc_make.specs.Laws.{ChosenPatternsHaveNoSecondSignals, DependenceWithinLayers};
ghost use Rattle.mc_make.specs.Laws.{FlowPatternsAreDeterministic, FlowPatternsAreMade};
ghost use Rattle.mc_make.specs.Laws.{FlowPatternsAreValid, FlowPatternsFit};
ghost use Rattle.mc_make.specs.Laws.{FlowPatternsHaveNoConstants, FlowPatternsKeepScale};
ghost use Rattle.mc_make.specs.Laws.{MeasuringOrderFalls, ZeroBranchOfFlowPattern};

use mc_graph::graphs_keep_zero_branch;

/// For every flow of an open graph all branches of its pattern are alike.
pub fn flow_patterns_are_deterministic()
    ensures { FlowPatternsAreDeterministic }
{}

/// For every flow of an open graph its pattern has the zero branch of the graph's pattern without a
/// flow.
pub fn zero_branch_of_flow_pattern()
    ensures { ZeroBranchOfFlowPattern }
{}

/// A flow's pattern measures each vertex that is no output once, by falling layer.
pub fn measuring_order_falls()
    ensures { MeasuringOrderFalls }
{}

/// The pattern of a flow is valid.
pub fn flow_patterns_are_valid()
    ensures { FlowPatternsAreValid }
{}

/// The pattern of a flow prepares and measures as many qubits as the graph's pattern without a
/// flow.
pub fn flow_patterns_keep_scale()
    ensures { FlowPatternsKeepScale }
{}

/// The pattern of a flow has at most 262,144 commands.
pub fn flow_patterns_fit()
    ensures { FlowPatternsFit }
{}

/// Where the graph has no fixed corrections, no signal of a flow's pattern has the constant.
pub fn flow_patterns_have_no_constants()
    ensures { FlowPatternsHaveNoConstants }
{}

/// No flow of the graph is less deep than the chosen one.
pub fn chosen_flows_are_least_deep()
    ensures { ChosenFlowsAreLeastDeep }
{}

/// The pattern of the chosen flow corrects by `Z` on outputs alone.
pub fn chosen_patterns_fix_z_on_outputs()
    ensures { ChosenPatternsFixZOnOutputs }
{}

/// The standard form of the chosen flow's pattern has no second signals.
pub fn chosen_patterns_have_no_second_signals()
    ensures { ChosenPatternsHaveNoSecondSignals }
{}

/// The dependence depth of that standard form is at most the depth of the flow.
pub fn dependence_within_layers()
    ensures { DependenceWithinLayers }
{}

/// Whatever the flow of a pattern's graph, each branch of the flow's pattern is alike with the zero
/// branch of the pattern.
pub fn flow_patterns_are_made()
    ensures { FlowPatternsAreMade }
{
    graphs_keep_zero_branch();
}
