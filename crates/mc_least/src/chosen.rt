//! The bound that is chosen for a flow.

ghost use Rattle.std.specs.Prelude.{◌≤◌, IfOk};
ghost use Rattle.mc_model.specs.Graph.{size};
ghost use Rattle.mc_least.specs.Chosen.{IsChosenBoundOf, IsEarliest};

use crate::layers::add_layers;
use crate::sets::add_sets;
use mc_cert::Bound;
use mc_graph::{GFlow, OpenGraph};
use mc_model::Memory;
use std::alloc::Global;

/// The bound of depth that shows that no flow of the graph is less deep than this one: its layers, and for each layer below
/// the depth and each vertex above it the least set that keeps the vertex from that layer.
pub fn bound_of<const H: usize>(alloc: Global, g: &OpenGraph<H>, f: &GFlow) -> Result<Bound, Memory>
    requires flow { IsEarliest g.now f.now }
    requires small { size g.now ≤ 64 }
    ensures { IfOk result (IsChosenBoundOf g.now f.now) }
{
    let mut bound = Bound::new(alloc, f.depth());
    add_layers(g, f, &mut bound)?;
    add_sets(alloc, g, f, &mut bound)?;
    // the proof needs that no vertex has two layers, nor two sets for a layer
    let (_layers, _sets) = (bound.layers(), bound.len());
    Ok(bound)
}
