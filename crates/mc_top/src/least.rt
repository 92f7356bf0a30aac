//! `least`: the bound of depth that is chosen for the chosen flow of an open graph, or the chosen refuter of one that has no
//! flow.

ghost use Rattle.std.specs.Prelude.{◌≡◌, ◌≤◌, OnOk, IsTrue};
ghost use Rattle.mc_model.specs.Graph.{size};
ghost use Rattle.mc_model.specs.Steps.{is_permitted};
ghost use Rattle.mc_graph.specs.Flows.{IsChosenFlowOf};
ghost use Rattle.mc_document.specs.Documents.{plain_document};
ghost use Rattle.mc_document.specs.Documents.{IsTaken, every_source};
ghost use Rattle.mc_least.specs.Chosen.{IsChosenBoundOf};
ghost use Rattle.mc_top.specs.Due.{GivesDue};
ghost use Rattle.mc_top.specs.Least.{IsBoundDue, IsBoundFoundDue, IsDueLeast, IsLeastDue};
ghost use Rattle.mc_top.specs.Least.{MeansLeast, size_limit};

use crate::answer::{Answer, judged};
use crate::flow::{answer_refuter, found};
use crate::graph_source::graph_source;
use crate::laws::bounds_mean_depths;
use mc_cert::{Bound, short_bounds_are_few};
use mc_cert_text::Cert;
use mc_document::{Document, print_with_cert};
use mc_gflow::Found;
use mc_graph::{GFlow, OpenGraph};
use mc_least::{bound_of, chosen_flows_are_earliest};
use mc_lex::TextEnd;
use std::alloc::Global;

/// The word that asks for it.
pub(crate) const WORD: &[u8] = b"least";

/// The most vertices of a graph.
const MOST_VERTICES: u16 = 64;

/// The text of a document's graph with the bound that is chosen for its chosen flow behind it; or, with `No`, with its chosen
/// refuter behind it, exactly where it has no flow.
pub(crate) fn answer_least<const H: usize>(
    alloc: Global,
    document: Document<H>,
) -> Result<Answer, TextEnd>
    requires permitted { IsTrue (is_permitted H) }
    requires taken { IsTaken every_source (plain_document document) }
    ensures due { GivesDue (IsDueLeast H (plain_document document.entry)) result }
    ensures meaning { OnOk result (MeansLeast H (plain_document document.entry)) }
{
    bounds_mean_depths();
    match graph_source(alloc, document) {
        Ok(graph) => answer_within(alloc, &graph),
        Err(end) => Err(end),
    }
}

/// The limit that the vertices of a graph pass, if they do.
fn size_limit<const H: usize>(graph: &OpenGraph<H>) -> Option<TextEnd>
    ensures { result ≡ size_limit graph.now }
{
    let vertices = graph.len();
    if vertices > MOST_VERTICES {
        Some(TextEnd::Limit {
            which: 8,
            found: vertices.into(),
        })
    } else {
        None
    }
}

/// The answer to a graph, if it has at most 64 vertices.
fn answer_within<const H: usize>(alloc: Global, graph: &OpenGraph<H>) -> Result<Answer, TextEnd>
    ensures { GivesDue (IsLeastDue H graph.now) result }
{
    match size_limit(graph) {
        Some(end) => Err(end),
        None => answer_found(alloc, graph),
    }
}

fn answer_found<const H: usize>(alloc: Global, graph: &OpenGraph<H>) -> Result<Answer, TextEnd>
    requires { size graph.now ≤ 64 }
    ensures { GivesDue (IsBoundFoundDue H graph.now) result }
{
    match found(alloc, graph) {
        Ok(Found::Flow(flow)) => answer_flow(alloc, graph, &flow),
        Ok(Found::Refuted(refuter)) => answer_refuter(alloc, graph, refuter),
        Err(_) => Err(TextEnd::Memory),
    }
}

/// The graph with the bound that is chosen for its flow behind it.
fn answer_flow<const H: usize>(
    alloc: Global,
    graph: &OpenGraph<H>,
    flow: &GFlow,
) -> Result<Answer, TextEnd>
    requires chosen { IsChosenFlowOf graph.now flow.now }
    requires small { size graph.now ≤ 64 }
    ensures { GivesDue (IsBoundDue H graph.now) result }
{
    chosen_flows_are_earliest();
    match bound_of(alloc, graph, flow) {
        Ok(bound) => answer_bound(alloc, graph, flow, bound),
        Err(_) => Err(TextEnd::Memory),
    }
}

fn answer_bound<const H: usize>(
    alloc: Global,
    graph: &OpenGraph<H>,
    _flow: &GFlow,
    bound: Bound,
) -> Result<Answer, TextEnd>
    requires chosen { IsChosenFlowOf graph.now _flow.now }
    requires small { size graph.now ≤ 64 }
    requires bound { IsChosenBoundOf graph.now _flow.now bound }
    ensures { GivesDue (IsBoundDue H graph.now) result }
{
    short_bounds_are_few();
    let cert = Cert::Least(bound);
    judged(print_with_cert(alloc, graph, &cert), true)
}
