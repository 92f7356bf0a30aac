//! `graph`: the open graph of a pattern.

ghost use Rattle.std.specs.Prelude.{◌≡◌, OnOk, IfOk, IsSomeAnd, IsTrue};
ghost use Rattle.mc_model.specs.Graph.{graph_of as pattern_graph};
ghost use Rattle.mc_model.specs.Steps.{is_permitted};
ghost use Rattle.mc_graph.specs.Laws.{KeepsZeroBranch};
ghost use Rattle.mc_graph_text.specs.Canonical.{graph_text};
ghost use Rattle.mc_document.specs.Documents.{plain_document};
ghost use Rattle.mc_document.specs.Documents.{IsTaken, circuits_and_patterns};
ghost use Rattle.mc_top.specs.Due.{Gives, Holds, holding};
ghost use Rattle.mc_top.specs.Graph.{MeansGraph, due_graph};

use crate::answer::{Answer, told};
use crate::source::source;
use mc_document::Document;
use mc_graph::{graph_of, graphs_keep_zero_branch};
use mc_graph_text::print_graph;
use mc_lex::TextEnd;
use mc_model::Memory;
use mc_pattern::Pattern;
use std::alloc::Global;

/// The word that asks for it.
pub(crate) const WORD: &[u8] = b"graph";

/// The text of the open graph of a document's pattern.
pub(crate) fn answer_graph<const H: usize>(
    alloc: Global,
    document: Document<H>,
) -> Result<Answer, TextEnd>
    requires permitted { IsTrue (is_permitted H) }
    requires taken { IsTaken circuits_and_patterns (plain_document document) }
    ensures due { IsSomeAnd (due_graph H (plain_document document.entry)) (Gives result) }
    ensures meaning { OnOk result (MeansGraph H (plain_document document.entry)) }
    ensures holds { IfOk result Holds }
{
    match source(alloc, document) {
        Ok(source) => answer_pattern(alloc, &source),
        Err(end) => Err(end),
    }
}

fn answer_pattern<const H: usize>(alloc: Global, source: &Pattern<H>) -> Result<Answer, TextEnd>
    requires { IsTrue (is_permitted H) }
    ensures due { Gives result (holding (graph_text H (pattern_graph H source.now))) }
    ensures meaning { KeepsZeroBranch H source.now }
    ensures holds { IfOk result Holds }
{
    graphs_keep_zero_branch();
    // the proof needs that the pattern is valid
    let _names = source.names();
    told(print_pattern_graph(alloc, source))
}

/// The text of a pattern's open graph.
fn print_pattern_graph<const H: usize>(
    alloc: Global,
    source: &Pattern<H>,
) -> Result<Vec<u8>, Memory>
    ensures { IfOk result (λ text. text.items ≡ graph_text H (pattern_graph H source.now)) }
{
    let graph = graph_of(alloc, source)?;
    print_graph(alloc, &graph)
}
