//! What is proved of compiled circuits.

ghost use Rattle.mc_compile.specs.Laws.{CompiledCircuits};

use mc_graph::{graphs_keep_zero_branch, graphs_without_constants};
use mc_make::{
    chosen_flows_are_least_deep, chosen_patterns_have_no_second_signals, dependence_within_layers,
    flow_patterns_are_made, flow_patterns_have_no_constants,
};
use mc_model::chosen_flows_are_flows;
use mc_rules::{standard_is_alike, standard_is_standard, standard_keeps_zero_branch};
use mc_shift::no_second_signals_no_shift;
use mc_translate::{
    translation_has_scale, translation_keeps_table, translations_are_valid,
    translations_have_no_constants,
};

/// What is compiled from a circuit has its table at every branch, and is no deeper than any flow.
pub fn compiled_circuits()
    ensures { CompiledCircuits }
{
    translations_are_valid();
    translations_have_no_constants();
    translation_keeps_table();
    translation_has_scale();
    graphs_keep_zero_branch();
    graphs_without_constants();
    chosen_flows_are_flows();
    chosen_flows_are_least_deep();
    flow_patterns_are_made();
    flow_patterns_have_no_constants();
    chosen_patterns_have_no_second_signals();
    dependence_within_layers();
    standard_is_standard();
    standard_is_alike();
    standard_keeps_zero_branch();
    no_second_signals_no_shift();
}
