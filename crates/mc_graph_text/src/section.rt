//! The section of a graph.

ghost use Rattle.std.specs.Prelude.{◌≡◌, [], IfOk, IsTrue};
ghost use Rattle.mc_model.specs.Steps.{is_permitted};
ghost use Rattle.mc_graph_text.specs.Judge.{has_fixing};
ghost use Rattle.mc_graph_text.specs.Kept.{IsKept};

use crate::reader::Reader;
use crate::steps::{end_words, take};
use mc_graph::GraphBuilder;
use mc_model::Memory;
use mc_names::Names;
use mc_text::{Point, Section, Stop};
use std::alloc::Global;

impl<const H: usize> Reader<H> {
    /// Before the first line of a section of this version.
    pub(crate) fn new(alloc: Global, version: u8) -> Result<Reader<H>, Memory>
        requires { IsTrue (is_permitted H) }
        ensures kept { IfOk result (λ reader. IsKept reader [] []) }
        ensures fixes { IfOk result (λ reader. reader.fixes ≡ has_fixing version) }
    {
        match GraphBuilder::new(alloc, Names::new(alloc)) {
            Ok(graph) => Ok(Reader {
                graph,
                inputs: 0,
                outputs: Vec::new(alloc),
                first: 0,
                fixes: version == 2,
            }),
            Err(_) => Err(Memory),
        }
    }
}

impl<const H: usize> Section for Reader<H> {
    ghost use Rattle.mc_graph_text.specs.Judge.{rules_with};
    ghost use Rattle.mc_graph_text.specs.Kept.{IsKept};

    ghost rules = { λ reader. rules_with reader.fixes };

    ghost means = { IsKept };

    fn word(&mut self, point: Point, word: &[u8]) -> Result<(), Stop> {
        match take(self, point, word) {
            Ok(()) => Ok(()),
            Err(stop) => Err(stop),
        }
    }

    fn end_line(&mut self, point: Point) -> Result<(), Stop> {
        match end_words(&self.graph, self.outputs.as_slice(), point) {
            Ok(()) => Ok(()),
            Err(stop) => Err(stop),
        }
    }
}
