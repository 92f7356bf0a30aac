//! `make`: the pattern that is made from the chosen flow of an open graph, or the refuter of a graph that has none.

ghost use Rattle.std.specs.Prelude.{◌≡◌, OnOk, IfOk, IsTrue};
ghost use Rattle.mc_model.specs.Made.{flow_pattern};
ghost use Rattle.mc_model.specs.Steps.{is_permitted};
ghost use Rattle.mc_pattern_text.specs.Canonical.{pattern_text};
ghost use Rattle.mc_graph.specs.Flows.{IsChosenFlowOf, layer_in, sets_in};
ghost use Rattle.mc_document.specs.Documents.{IsDocument, plain_document};
ghost use Rattle.mc_document.specs.Documents.{IsTaken, every_source};
ghost use Rattle.mc_top.specs.Due.{GivesDue};
ghost use Rattle.mc_top.specs.Make.{IsDueMake, IsMakingDue, MeansMake};

use crate::answer::{Answer, told};
use crate::flow::{answer_refuter, found};
use crate::graph_source::graph_source;
use mc_document::Document;
use mc_gflow::Found;
use mc_graph::{GFlow, OpenGraph};
use mc_lex::TextEnd;
use mc_make::{
    flow_patterns_are_deterministic, flow_patterns_are_made, flow_patterns_are_valid,
    flow_patterns_keep_scale, make_pattern, zero_branch_of_flow_pattern,
};
use mc_model::Memory;
use mc_pattern_text::print_pattern;
use mc_translate::translations_are_valid;
use std::alloc::Global;

/// The word that asks for it.
pub(crate) const WORD: &[u8] = b"make";

/// The text of the pattern that is made from the chosen flow of a document's graph; or, with `No`, what `flow` answers, exactly
/// where the graph has no flow.
pub(crate) fn answer_make<const H: usize>(
    alloc: Global,
    document: Document<H>,
) -> Result<Answer, TextEnd>
    requires permitted { IsTrue (is_permitted H) }
    requires valid { IsDocument H (plain_document document) }
    requires taken { IsTaken every_source (plain_document document) }
    ensures due { GivesDue (IsDueMake H (plain_document document.entry)) result }
    ensures meaning { OnOk result (MeansMake H (plain_document document.entry)) }
{
    translations_are_valid();
    flow_patterns_are_made();
    flow_patterns_are_valid();
    flow_patterns_keep_scale();
    flow_patterns_are_deterministic();
    zero_branch_of_flow_pattern();
    match graph_source(alloc, document) {
        Ok(graph) => answer_made(alloc, &graph),
        Err(end) => Err(end),
    }
}

fn answer_made<const H: usize>(alloc: Global, graph: &OpenGraph<H>) -> Result<Answer, TextEnd>
    ensures { GivesDue (IsMakingDue H graph.now) result }
{
    match found(alloc, graph) {
        Ok(Found::Flow(flow)) => told(print_made(alloc, graph, &flow)),
        Ok(Found::Refuted(refuter)) => answer_refuter(alloc, graph, refuter),
        Err(_) => Err(TextEnd::Memory),
    }
}

/// The text of the pattern that is made from the chosen flow.
fn print_made<const H: usize>(
    alloc: Global,
    graph: &OpenGraph<H>,
    flow: &GFlow,
) -> Result<Vec<u8>, Memory>
    requires { IsChosenFlowOf graph.now flow.now }
    ensures { IfOk result (λ text. text.items
        ≡ pattern_text H
        (flow_pattern graph.now (sets_in flow.now.rows) (layer_in flow.now.rows))) }
{
    let pattern = make_pattern(alloc, graph, flow)?;
    print_pattern(alloc, &pattern)
}
