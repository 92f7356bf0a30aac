//! `flow`: the chosen flow of an open graph, or the chosen refuter of one that has no flow.

ghost use Rattle.std.specs.Prelude.{◌≡◌, OnOk, IfOk, IsTrue};
ghost use Rattle.mc_model.specs.Steps.{is_permitted};
ghost use Rattle.mc_graph.specs.Flows.{IsChosenFlowOf};
ghost use Rattle.mc_graph.specs.Refuters.{IsChosenRefuterOf};
ghost use Rattle.mc_gflow.specs.Answers.{HasNoFlow, IsChosen};
ghost use Rattle.mc_document.specs.Documents.{plain_document};
ghost use Rattle.mc_document.specs.Documents.{IsTaken, every_source};
ghost use Rattle.mc_top.specs.Due.{GivesDue};
ghost use Rattle.mc_top.specs.Flow.{IsDueFlow, IsFlowDue, IsFoundDue, IsRefuterDue, MeansFlow};

use crate::answer::{Answer, judged};
use crate::graph_source::graph_source;
use crate::laws::findings_mean_flows;
use mc_bits::Steps;
use mc_cert_text::Cert;
use mc_document::{Document, print_with_cert};
use mc_gflow::{Found, find_flow};
use mc_graph::{GFlow, OpenGraph, Refuter};
use mc_lex::TextEnd;
use mc_model::Memory;
use std::alloc::Global;
use std::marker::Brand;
use std::sync::ledger::{Blank, Ledger};

/// The word that asks for it.
pub(crate) const WORD: &[u8] = b"flow";

/// The text of a document's graph with its chosen flow behind it; or, with `No`, with its chosen refuter behind it, exactly
/// where it has no flow.
pub(crate) fn answer_flow<const H: usize>(
    alloc: Global,
    document: Document<H>,
) -> Result<Answer, TextEnd>
    requires permitted { IsTrue (is_permitted H) }
    requires taken { IsTaken every_source (plain_document document) }
    ensures due { GivesDue (IsDueFlow H (plain_document document.entry)) result }
    ensures meaning { OnOk result (MeansFlow H (plain_document document.entry)) }
{
    findings_mean_flows();
    match graph_source(alloc, document) {
        Ok(graph) => answer_found(alloc, &graph),
        Err(end) => Err(end),
    }
}

fn answer_found<const H: usize>(alloc: Global, graph: &OpenGraph<H>) -> Result<Answer, TextEnd>
    ensures { GivesDue (IsFoundDue H graph.now) result }
{
    match found(alloc, graph) {
        Ok(Found::Flow(flow)) => answer_chosen(alloc, graph, flow),
        Ok(Found::Refuted(refuter)) => answer_refuter(alloc, graph, refuter),
        Err(_) => Err(TextEnd::Memory),
    }
}

/// What the finder finds; its steps are not told.
pub(crate) fn found<const H: usize>(alloc: Global, graph: &OpenGraph<H>) -> Result<Found, Memory>
    ensures { IfOk result (IsChosen graph.now) }
{
    counted::<OpenGraph<H>, Brand>(alloc, graph, Blank::new(1))
}

/// What is searched for a flow. A count that is made in a call has no place in a function with a const parameter.
trait Searched {
    ghost use Rattle.mc_model.specs.Graph.{OpenGraph as Plain};
    ghost use Rattle.mc_gflow.specs.Answers.{IsChosen};

    /// The graph that it is.
    ghost graph: { Self → Plain };

    /// What the finder finds in it.
    fn find<L: Ledger>(&self, alloc: Global, steps: &mut Steps<L>) -> Result<Found, Memory>
        ensures { IfOk result (IsChosen (graph self.now)) };
}

impl<const H: usize> Searched for OpenGraph<H> {
    ghost graph = { λ g. g };

    fn find<L: Ledger>(&self, alloc: Global, steps: &mut Steps<L>) -> Result<Found, Memory> {
        find_flow(alloc, self, steps)
    }
}

fn counted<G: Searched, L: Ledger>(alloc: Global, graph: &G, blank: Blank) -> Result<Found, Memory>
    requires name { blank.name ≡ L.name }
    requires parts { (blank.parts ≡ L.parts) × (L.parts ≡ 1) }
    ensures { IfOk result (IsChosen (G.graph graph.now)) }
{
    let mut steps = Steps::<L>::new(blank);
    graph.find(alloc, &mut steps)
}

/// The graph with its chosen flow behind it.
fn answer_chosen<const H: usize>(
    alloc: Global,
    graph: &OpenGraph<H>,
    flow: GFlow,
) -> Result<Answer, TextEnd>
    requires { IsChosenFlowOf graph.now flow }
    ensures { GivesDue (IsFlowDue H graph.now) result }
{
    let _vertices = graph.len();
    let cert = Cert::Flow(flow);
    judged(print_with_cert(alloc, graph, &cert), true)
}

/// The graph with its chosen refuter behind it, and that what was asked does not hold.
pub(crate) fn answer_refuter<const H: usize>(
    alloc: Global,
    graph: &OpenGraph<H>,
    refuter: Refuter,
) -> Result<Answer, TextEnd>
    requires chosen { IsChosenRefuterOf graph.now refuter }
    requires none { HasNoFlow graph.now }
    ensures { GivesDue (IsRefuterDue H graph.now) result }
{
    let cert = Cert::NoFlow(refuter);
    judged(print_with_cert(alloc, graph, &cert), false)
}
