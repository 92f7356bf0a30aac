//! The layers of a bound, which are those of its flow.

ghost use Rattle.std.specs.Prelude.{◌≡◌, ◌<◌, ◌≤◌, ◌+◌, OnOk};
ghost use Rattle.mc_model.specs.Graph.{size};
ghost use Rattle.mc_graph.specs.Flows.{layer_in};
ghost use Rattle.mc_least.specs.Rows.{HoldsLayers};

use mc_cert::Bound;
use mc_graph::{GFlow, OpenGraph};
use mc_model::Memory;

/// Adds the layer of a vertex, if it is this one.
fn add_next<const H: usize>(
    g: &OpenGraph<H>,
    f: &GFlow,
    layer: u32,
    v: u16,
    bound: &mut Bound,
) -> Result<(), Memory>
    requires place { (1 ≤ layer) × (v < size g.now) }
    requires layers { HoldsLayers g.now (layer_in f.now.rows) layer v bound.old.layers }
    ensures layers { OnOk result
        (HoldsLayers g.now (layer_in f.now.rows) layer (v + 1) bound.new.layers) }
    ensures same { OnOk result
        ((bound.new.depth ≡ bound.old.depth) × (bound.new.rows ≡ bound.old.rows)) }
{
    if f.layer_of(v) != layer {
        return Ok(());
    }
    match bound.layer(v, layer) {
        Ok(()) => Ok(()),
        // no vertex is met twice
        Err(_) => Err(Memory),
    }
}

/// Adds the vertices of a layer, by rising number.
fn add_layer<const H: usize>(
    g: &OpenGraph<H>,
    f: &GFlow,
    layer: u32,
    bound: &mut Bound,
) -> Result<(), Memory>
    requires positive { 1 ≤ layer }
    requires layers { HoldsLayers g.now (layer_in f.now.rows) layer 0 bound.old.layers }
    ensures layers { OnOk result
        (HoldsLayers g.now (layer_in f.now.rows) (layer + 1) 0 bound.new.layers) }
    ensures same { OnOk result
        ((bound.new.depth ≡ bound.old.depth) × (bound.new.rows ≡ bound.old.rows)) }
{
    'vertices: for v in 0..g.len() {
        add_next(g, f, layer, v, bound)?;
    }
    Ok(())
}

/// Adds the layers of a flow of this depth, by rising layer.
pub(crate) fn add_layers<const H: usize>(
    g: &OpenGraph<H>,
    f: &GFlow,
    bound: &mut Bound,
) -> Result<(), Memory>
    requires layers { HoldsLayers g.now (layer_in f.now.rows) 1 0 bound.old.layers }
    ensures layers { OnOk result
        (HoldsLayers g.now (layer_in f.now.rows) (f.now.depth + 1) 0 bound.new.layers) }
    ensures same { OnOk result
        ((bound.new.depth ≡ bound.old.depth) × (bound.new.rows ≡ bound.old.rows)) }
{
    'layers: for layer in 0..f.depth() {
        add_layer(g, f, layer + 1, bound)?;
    }
    Ok(())
}
