//! Candidates that are inserted into the basis.

ghost use Rattle.std.specs.Prelude.{◌≡◌, ◌<◌, ◌+◌, length, slice_index};
ghost use Rattle.mc_model.specs.Graph.{size};
ghost use Rattle.mc_gflow.specs.Layers.{HoldsCandidates, CountsColumns};

use crate::graph::{column, is_input};
use mc_bits::Steps;
use mc_elim::Basis;
use mc_graph::OpenGraph;
use std::sync::ledger::Ledger;

/// Inserts a vertex, if it is a candidate of this layer.
fn insert_next<const H: usize, L: Ledger>(
    graph: &OpenGraph<H>,
    layer: u16,
    w: u16,
    layers: &[u16],
    basis: &mut Basis,
    order: &mut [u16],
    steps: &mut Steps<L>,
)
    requires vertex { w < size graph.now }
    requires lengths { (length layers.now ≡ size graph.now) × (length order.old ≡ size graph.now) }
    requires candidates { HoldsCandidates graph.now (slice_index layers.now) layer w
        (slice_index order.old) basis.old }
    ensures candidates { HoldsCandidates graph.now (slice_index layers.now) layer (w + 1)
        (slice_index order.new) basis.new }
    ensures counted { CountsColumns (size graph.now) steps.old steps.new basis.old basis.new }
{
    if layers[w as usize] == layer && !is_input(graph, w) {
        order[basis.inserted() as usize] = w;
        basis.insert(&column(graph, w), steps);
    }
}

/// Inserts the candidates of a layer, by rising number.
pub fn insert_layer<const H: usize, L: Ledger>(
    graph: &OpenGraph<H>,
    layer: u16,
    layers: &[u16],
    basis: &mut Basis,
    order: &mut [u16],
    steps: &mut Steps<L>,
)
    requires lengths { (length layers.now ≡ size graph.now) × (length order.old ≡ size graph.now) }
    requires candidates { HoldsCandidates graph.now (slice_index layers.now) layer 0
        (slice_index order.old) basis.old }
    ensures candidates { HoldsCandidates graph.now (slice_index layers.now) (layer + 1) 0
        (slice_index order.new) basis.new }
    ensures counted { CountsColumns (size graph.now) steps.old steps.new basis.old basis.new }
{
    'vertices: for w in 0..graph.len() {
        insert_next(graph, layer, w, layers, basis, order, steps);
    }
}
