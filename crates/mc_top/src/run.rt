//! `run`: the table of a circuit, or of all branches of a pattern or of a graph.

ghost use Rattle.std.specs.Prelude.{OnOk, IfOk, IsSomeAnd, IsTrue};
ghost use Rattle.mc_model.specs.Graph.{zero_pattern as bare_pattern};
ghost use Rattle.mc_model.specs.Steps.{is_permitted};
ghost use Rattle.mc_document.specs.Documents.{plain_document};
ghost use Rattle.mc_document.specs.Documents.{IsTaken, every_source};
ghost use Rattle.mc_top.specs.Due.{Gives, Holds};
ghost use Rattle.mc_top.specs.Run.{MeansBranches, MeansRun, MeansTable, due_branches, due_run};
ghost use Rattle.mc_top.specs.Run.{due_table};

use crate::answer::{Answer, ran};
use mc_circuit::Circuit;
use mc_document::Document;
use mc_graph::{OpenGraph, zero_pattern};
use mc_lex::TextEnd;
use mc_pattern::Pattern;
use mc_run_text::{amplitudes_are_reduced, phases_are_least, run_all_text, run_circuit_text};
use std::alloc::Global;

/// The word that asks for it.
pub(crate) const WORD: &[u8] = b"run";

/// The table of a circuit, or of all branches of a pattern. A graph counts as its pattern without a flow.
pub(crate) fn answer_run<const H: usize>(
    alloc: Global,
    document: Document<H>,
) -> Result<Answer, TextEnd>
    requires permitted { IsTrue (is_permitted H) }
    requires taken { IsTaken every_source (plain_document document) }
    ensures due { IsSomeAnd (due_run H (plain_document document.entry)) (Gives result) }
    ensures meaning { OnOk result (MeansRun H (plain_document document.entry)) }
    ensures holds { IfOk result Holds }
{
    match document {
        Document::Circuit(circuit) => answer_table(alloc, &circuit),
        Document::Pattern(pattern, _) => answer_branches(alloc, &pattern),
        Document::Traced(pattern, _) => answer_branches(alloc, &pattern),
        Document::Graph(graph, _) => answer_graph_branches(alloc, &graph),
        _ => unreachable!(),
    }
}

fn answer_table<const H: usize>(alloc: Global, circuit: &Circuit<H>) -> Result<Answer, TextEnd>
    requires { IsTrue (is_permitted H) }
    ensures due { Gives result (due_table H circuit.now) }
    ensures meaning { MeansTable H circuit.now }
    ensures holds { IfOk result Holds }
{
    amplitudes_are_reduced::<H>();
    ran(run_circuit_text(alloc, circuit))
}

fn answer_branches<const H: usize>(alloc: Global, pattern: &Pattern<H>) -> Result<Answer, TextEnd>
    requires { IsTrue (is_permitted H) }
    ensures due { Gives result (due_branches H pattern.now) }
    ensures meaning { MeansBranches H pattern.now }
    ensures holds { IfOk result Holds }
{
    amplitudes_are_reduced::<H>();
    phases_are_least::<H>();
    // the proof needs that the pattern is valid
    let _names = pattern.names();
    ran(run_all_text(alloc, pattern))
}

/// The table of all branches of a graph's pattern without a flow.
fn answer_graph_branches<const H: usize>(
    alloc: Global,
    graph: &OpenGraph<H>,
) -> Result<Answer, TextEnd>
    requires { IsTrue (is_permitted H) }
    ensures due { Gives result (due_branches H (bare_pattern graph.now)) }
    ensures meaning { OnOk result (MeansBranches H (bare_pattern graph.now)) }
    ensures holds { IfOk result Holds }
{
    match zero_pattern(alloc, graph) {
        Ok(pattern) => answer_branches(alloc, &pattern),
        Err(_) => Err(TextEnd::Memory),
    }
}
