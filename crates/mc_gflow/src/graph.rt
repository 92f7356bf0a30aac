//! Columns of an open graph.

ghost use Rattle.std.specs.Prelude.{◌≡◌, ◌<◌, ℕ, length};
ghost use Rattle.mc_model.specs.Graph.{size, is_input as takes_in};
ghost use Rattle.mc_bits.specs.Rows.{bit_of};
ghost use Rattle.mc_gflow.specs.Layers.{column_of};

use mc_bits::BitRow;
use mc_graph::OpenGraph;

/// Whether a vertex is an input.
pub fn is_input<const H: usize>(graph: &OpenGraph<H>, v: u16) -> bool
    ensures { result ≡ takes_in graph.now v }
{
    v < graph.inputs()
}

/// The neighbours of a vertex but for outputs.
pub fn column<const H: usize>(graph: &OpenGraph<H>, w: u16) -> BitRow
    requires { w < size graph.now }
    ensures bits { (v : ℕ) → v < size graph.now → bit_of result v ≡ column_of graph.now w v }
    ensures length { length result ≡ size graph.now }
{
    let mut column = BitRow::new(graph.len());
    let neighbours = graph.neighbours(w);
    'neighbours: for v in neighbours {
        column.flip_if(*v, !graph.is_output(*v));
    }
    column
}
