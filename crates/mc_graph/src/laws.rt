//! What is proved of the open graphs of patterns.

ghost use Rattle.mc_graph.specs.Laws.{GraphsKeepZeroBranch, GraphsWithoutConstants};
ghost use Rattle.mc_graph.specs.Laws.{ZeroPatternsAreValid};

use mc_rules::{standard_is_alike, standard_keeps_zero_branch};

/// The graph of a pattern is an open graph, whose pattern has the pattern's zero branch up to one
/// phase, and exactly where no signal has the constant.
pub fn graphs_keep_zero_branch()
    ensures { GraphsKeepZeroBranch }
{
    standard_is_alike();
    standard_keeps_zero_branch();
}

/// Where no signal has the constant, the graph has the base angles and no fixed corrections.
pub fn graphs_without_constants()
    ensures { GraphsWithoutConstants }
{}

/// The pattern of an open graph without a flow is valid.
pub fn zero_patterns_are_valid()
    ensures { ZeroPatternsAreValid }
{}
