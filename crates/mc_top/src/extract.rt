//! `extract`: the circuit that is extracted by the chosen causal flow of an open graph, or the stuck set of a graph that has
//! none.

ghost use Rattle.std.specs.Prelude.{◌≡◌, ◌≤◌, OnOk, IfOk, IsTrue};
ghost use Rattle.mc_model.specs.Limits.{most_gates};
ghost use Rattle.mc_model.specs.Made.{extracted_circuit};
ghost use Rattle.mc_model.specs.Steps.{is_permitted};
ghost use Rattle.mc_circuit.specs.Canonical.{circuit_text};
ghost use Rattle.mc_graph.specs.Flows.{IsCausalFlowOf, layer_in, next_in};
ghost use Rattle.mc_extract.specs.Answers.{IsFoundStuck};
ghost use Rattle.mc_extract.specs.Extracted.{gate_count};
ghost use Rattle.mc_document.specs.Documents.{IsDocument, plain_document};
ghost use Rattle.mc_document.specs.Documents.{IsTaken, every_source};
ghost use Rattle.mc_top.specs.Due.{GivesDue};
ghost use Rattle.mc_top.specs.Extract.{gate_limit, IsDueExtract, IsExtractDue, IsExtractionDue};
ghost use Rattle.mc_top.specs.Extract.{IsStuckDue, MeansExtract};

use crate::answer::{Answer, judged, told};
use crate::graph_source::graph_source;
use mc_cert_text::Cert;
use mc_circuit::print_circuit;
use mc_document::{Document, print_with_cert};
use mc_extract::{
    Causal, circuits_are_extracted, extract, extracted_circuit_has_table, extracted_circuit_scale,
    extracted_circuits_are_valid, extracted_gates_are_edges, find_causal, gates_to_extract,
};
use mc_graph::{GFlow, OpenGraph, Stuck};
use mc_lex::TextEnd;
use mc_model::Memory;
use mc_translate::translations_are_valid;
use std::alloc::Global;

/// The word that asks for it.
pub(crate) const WORD: &[u8] = b"extract";

/// The most gates of a circuit.
const MOST_GATES: u32 = 32_768;

/// The text of the circuit that is extracted by the chosen causal flow of a document's graph; or, with `No`, the text of the
/// graph with its chosen stuck set behind it, exactly where it has no causal flow.
pub(crate) fn answer_extract<const H: usize>(
    alloc: Global,
    document: Document<H>,
) -> Result<Answer, TextEnd>
    requires permitted { IsTrue (is_permitted H) }
    requires valid { IsDocument H (plain_document document) }
    requires taken { IsTaken every_source (plain_document document) }
    ensures due { GivesDue (IsDueExtract H (plain_document document.entry)) result }
    ensures meaning { OnOk result (MeansExtract H (plain_document document.entry)) }
{
    translations_are_valid();
    circuits_are_extracted();
    extracted_circuits_are_valid();
    extracted_gates_are_edges();
    extracted_circuit_scale();
    extracted_circuit_has_table();
    match graph_source(alloc, document) {
        Ok(graph) => answer_within(alloc, &graph),
        Err(end) => Err(end),
    }
}

/// The limit that the gates of a graph's circuit pass, if they do.
fn gate_limit<const H: usize>(graph: &OpenGraph<H>) -> Option<TextEnd>
    ensures { result ≡ gate_limit graph.now }
{
    let gates = gates_to_extract(graph);
    if gates > MOST_GATES {
        Some(TextEnd::Limit {
            which: 3,
            found: gates.into(),
        })
    } else {
        None
    }
}

/// The answer to a graph, if its circuit has at most 32,768 gates.
fn answer_within<const H: usize>(alloc: Global, graph: &OpenGraph<H>) -> Result<Answer, TextEnd>
    ensures { GivesDue (IsExtractDue H graph.now) result }
{
    match gate_limit(graph) {
        Some(end) => Err(end),
        None => answer_causal(alloc, graph),
    }
}

fn answer_causal<const H: usize>(alloc: Global, graph: &OpenGraph<H>) -> Result<Answer, TextEnd>
    requires { gate_count graph.now ≤ most_gates }
    ensures { GivesDue (IsExtractionDue H graph.now) result }
{
    match find_causal(alloc, graph) {
        Ok(Causal::Flow(flow)) => told(print_extracted(alloc, graph, &flow)),
        Ok(Causal::Stuck(stuck)) => answer_stuck(alloc, graph, stuck),
        Err(_) => Err(TextEnd::Memory),
    }
}

/// The text of the circuit that is extracted by a causal flow.
fn print_extracted<const H: usize>(
    alloc: Global,
    graph: &OpenGraph<H>,
    flow: &GFlow,
) -> Result<Vec<u8>, Memory>
    requires flow { IsCausalFlowOf graph.now flow.now }
    requires few { gate_count graph.now ≤ most_gates }
    ensures { IfOk result (λ text. text.items ≡ circuit_text H
        (extracted_circuit H graph.now (next_in flow.now.rows) (layer_in flow.now.rows))) }
{
    let circuit = extract(alloc, graph, flow)?;
    print_circuit(alloc, &circuit)
}

/// The graph with its chosen stuck set behind it, and that what was asked does not hold.
fn answer_stuck<const H: usize>(
    alloc: Global,
    graph: &OpenGraph<H>,
    stuck: Stuck,
) -> Result<Answer, TextEnd>
    requires { IsFoundStuck graph.now stuck }
    ensures { GivesDue (IsStuckDue H graph.now) result }
{
    let cert = Cert::NoCausal(stuck);
    judged(print_with_cert(alloc, graph, &cert), false)
}
