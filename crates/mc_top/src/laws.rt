//! What is proved of what is due.

ghost use Rattle.std.specs.Prelude.{◌≡◌, true, ℕ, List, IsTrue};
ghost use Rattle.mc_model.specs.Graph.{OpenGraph};
ghost use Rattle.mc_model.specs.Steps.{is_permitted};
ghost use Rattle.mc_top.specs.Commands.{Asked, chooses, trace};
ghost use Rattle.mc_top.specs.Due.{Due};
ghost use Rattle.mc_top.specs.Flow.{MeansFound};
ghost use Rattle.mc_top.specs.Least.{BoundsHold, MeansBound};
ghost use Rattle.mc_top.specs.Serve.{IsDue, IsDueIn};

use mc_cert::short_bounds_are_few;
use mc_chosen::{
    causal_flows_or_stuck_sets_exist, chosen_flows_have_bounds, flows_or_refuters_exist,
};
use mc_document::{clean_texts_spell_documents, taken_documents_are_seen};
use mc_extract::{
    chosen_causal_flows_are_flows, chosen_causal_flows_are_unique, chosen_stuck_sets_are_unique,
};
use mc_graph::graphs_keep_zero_branch;
use mc_make::{chosen_flows_are_least_deep, flow_patterns_are_valid};
use mc_model::{chosen_flows_are_flows, depth_bounds_hold, refuters_exclude_flows};
use mc_rules::standard_is_standard;
use mc_shift::has_one_shifted_form;
use mc_trace::{derivations_exist, derivations_stay_short, every_trace_is_judged};
use mc_translate::{translations_are_valid, translations_have_flows};

/// Something is due for every text, whatever command is asked for: what a command can't meet is ruled out by what it takes,
/// and what is chosen of a graph exists, and a derivation of the standard form within its bounds. So it is in any step, but
/// where something is chosen or derived in the permitted ones alone.
pub fn something_is_due()
    ensures for_text { (asked : Asked) (text : List ℕ) → (due : Due) × IsDue asked text due }
    ensures in_step { (half : ℕ) (asked : Asked) (text : List ℕ) →
        (chooses asked ≡ true → IsTrue (is_permitted half)) →
        (due : Due) × IsDueIn half asked text due }
{
    clean_texts_spell_documents();
    taken_documents_are_seen();
    flows_or_refuters_exist();
    causal_flows_or_stuck_sets_exist();
    chosen_flows_have_bounds();
    short_bounds_are_few();
    derivations_exist();
    derivations_stay_short();
    chosen_flows_are_flows();
    translations_are_valid();
    translations_have_flows();
    graphs_keep_zero_branch();
    flow_patterns_are_valid();
    standard_is_standard();
    has_one_shifted_form();
    every_trace_is_judged();
}

/// Only one thing is due for a text, whatever command is asked for: there is one chosen flow, one chosen refuter, one
/// chosen causal flow and one chosen stuck set, and one pattern that a circuit is compiled into.
/// Of derivations any will do.
pub fn one_thing_is_due()
    ensures { (asked : Asked) (text : List ℕ) → (asked ≡ trace → ⊥) → (due due' : Due) → IsDue asked text due →
        IsDue asked text due' → due ≡ due' }
{
    clean_texts_spell_documents();
    chosen_causal_flows_are_flows();
    chosen_causal_flows_are_unique();
    chosen_stuck_sets_are_unique();
    chosen_flows_are_flows();
    translations_are_valid();
    graphs_keep_zero_branch();
    flow_patterns_are_valid();
    standard_is_standard();
    has_one_shifted_form();
}

/// The chosen flow of an open graph is a flow, and no flow is less deep (Mhalla and Perdrix 2008); a graph with a refuter has
/// no flow (of Browne, Kashefi, Mhalla and Perdrix 2007).
pub fn findings_mean_flows()
    ensures { (g : OpenGraph) → MeansFound g }
{
    chosen_flows_are_flows();
    chosen_flows_are_least_deep();
    refuters_exclude_flows();
}

/// A bound of depth is below the depth of every flow, the chosen bound too, which is one; a graph with a refuter has no flow.
pub fn bounds_mean_depths()
    ensures bounds { (g : OpenGraph) → BoundsHold g }
    ensures means { (g : OpenGraph) → MeansBound g }
{
    depth_bounds_hold();
    refuters_exclude_flows();
}
