//! The open graph of a document.

ghost use Rattle.std.specs.Prelude.{◌≡◌, None, Option, OnOk, IfOk, IfErr, IsTrue};
ghost use Rattle.mc_model.specs.Graph.{graph_of as pattern_graph};
ghost use Rattle.mc_model.specs.Steps.{is_permitted};
ghost use Rattle.mc_model.specs.Translation.{translation};
ghost use Rattle.mc_document.specs.Documents.{plain_document};
ghost use Rattle.mc_document.specs.Documents.{IsTaken, every_source};
ghost use Rattle.mc_top.specs.Due.{IsLimit};
ghost use Rattle.mc_top.specs.GraphSource.{source_graph};
ghost use Rattle.mc_top.specs.Source.{source_limit, translation_limit};

use crate::source::translated;
use mc_circuit::Circuit;
use mc_document::Document;
use mc_graph::{OpenGraph, graph_of};
use mc_lex::TextEnd;
use mc_pattern::Pattern;
use std::alloc::Global;

/// The open graph of a document, where a circuit counts as its translation and a pattern as its graph.
pub(crate) fn graph_source<const H: usize>(
    alloc: Global,
    document: Document<H>,
) -> Result<OpenGraph<H>, TextEnd>
    requires permitted { IsTrue (is_permitted H) }
    requires taken { IsTaken every_source (plain_document document) }
    ensures graph { IfOk result (λ g. g ≡ source_graph H (plain_document document.entry)) }
    ensures few { OnOk result (source_limit (plain_document document.entry) ≡ None) }
    ensures err { IfErr result (λ end. IsLimit end (source_limit (plain_document document.entry))) }
{
    match document {
        Document::Circuit(circuit) => circuit_graph(alloc, &circuit),
        Document::Pattern(pattern, _) => pattern_graph(alloc, &pattern),
        Document::Traced(pattern, _) => pattern_graph(alloc, &pattern),
        Document::Graph(graph, _) => Ok(graph),
        _ => unreachable!(),
    }
}

/// The graph of a circuit's translation, which has at most 256 qubits.
fn circuit_graph<const H: usize>(
    alloc: Global,
    circuit: &Circuit<H>,
) -> Result<OpenGraph<H>, TextEnd>
    requires { IsTrue (is_permitted H) }
    ensures graph { IfOk result (λ g. g ≡ pattern_graph H (translation H circuit.now)) }
    ensures few { OnOk result (translation_limit circuit.now ≡ None) }
    ensures err { IfErr result (λ end. IsLimit end (translation_limit circuit.now)) }
{
    match translated(alloc, circuit) {
        Ok(pattern) => pattern_graph(alloc, &pattern),
        Err(end) => Err(end),
    }
}

fn pattern_graph<const H: usize>(
    alloc: Global,
    pattern: &Pattern<H>,
) -> Result<OpenGraph<H>, TextEnd>
    ensures graph { IfOk result (λ g. g ≡ pattern_graph H pattern.now) }
    ensures err { (limit : Option TextEnd) → IfErr result (λ end. IsLimit end limit) }
{
    match graph_of(alloc, pattern) {
        Ok(graph) => Ok(graph),
        Err(_) => Err(TextEnd::Memory),
    }
}
