//! Vertices that are taken into a layer, and those that can't be.

ghost use Rattle.std.specs.Prelude.{◌≡◌, ◌<◌, ◌≤◌, ◌+◌};
ghost use Rattle.std.specs.Prelude.{ℕ, true, false, length};
ghost use Rattle.std.specs.Prelude.{slice_index};
ghost use Rattle.mc_model.specs.Graph.{size};
ghost use Rattle.mc_bits.specs.Rows.{bit_of};
ghost use Rattle.mc_elim.specs.Tables.{entry};
ghost use Rattle.mc_elim.specs.Basis.{HasSolution};
ghost use Rattle.mc_gflow.specs.Layers.{TakenUpTo, AreAlone, AreRefuted, HasSquare, untaken};
ghost use Rattle.mc_gflow.specs.Layers.{vertices_of};

use mc_bits::{BitRow, Rows};
use mc_elim::Basis;
use mc_graph::OpenGraph;

/// The layer of a vertex that was not taken.
pub const NONE: u16 = 65_535;

/// Writes the vertices of a set of columns.
fn write_vertices(columns: &BitRow, order: &[u16], count: u16, out: &mut BitRow)
    requires count { (count ≤ length order.now) × (count ≤ length columns.now) }
    requires vertices { (j : ℕ) → j < count → slice_index order.now j < length out.old }
    ensures bits { (w : ℕ) → bit_of out.new w
        ≡ vertices_of count (slice_index order.now) (bit_of columns.now) w }
    ensures length { length out.new ≡ length out.old }
{
    *out = BitRow::new(out.len());
    let mut low = 0;
    'columns: while let Some(j) = columns.next_bit(low, count) {
        out.flip_if(order[j as usize], true);
        low = j + 1;
    }
}

/// Takes a vertex into the layer, if it can be corrected by the inserted candidates.
fn take_next<const H: usize>(
    graph: &OpenGraph<H>,
    layer: u16,
    u: u16,
    layers: &mut [u16],
    basis: &Basis,
    order: &[u16],
    sets: &mut Rows,
    columns: &mut BitRow,
) -> bool
    requires vertex { u < size graph.now }
    requires lengths { (length layers.old ≡ size graph.now) × (length order.now ≡ size graph.now)
        × (length columns.old ≡ size graph.now) }
    requires square { HasSquare (size graph.now) sets.old }
    requires taken { TakenUpTo graph.now (slice_index layers.old) NONE layer u (entry sets.old)
        (slice_index order.now) basis.now }
    ensures taken { TakenUpTo graph.now (slice_index layers.new) NONE layer (u + 1)
        (entry sets.new) (slice_index order.now) basis.now }
    ensures square { HasSquare (size graph.now) sets.new }
    ensures length { length columns.new ≡ length columns.old }
    ensures fewer { result ≡ true → untaken NONE layers.new + 1 ≡ untaken NONE layers.old }
    ensures same { result ≡ false → (layers.new ≡ layers.old) × (sets.new ≡ sets.old) }
    ensures alone { basis.now.has_added ≡ false →
        AreAlone graph.now (slice_index layers.old) layer (entry sets.old) →
        AreAlone graph.now (slice_index layers.new) layer (entry sets.new) }
{
    if layers[u as usize] != NONE {
        return false;
    }
    if !basis.single(u, columns) {
        return false;
    }
    write_vertices(columns, order, basis.inserted(), sets.row_mut(u));
    layers[u as usize] = layer;
    true
}

/// Takes all vertices that can be taken into the layer; tells whether there were any.
pub fn take_layer<const H: usize>(
    graph: &OpenGraph<H>,
    layer: u16,
    layers: &mut [u16],
    basis: &Basis,
    order: &[u16],
    sets: &mut Rows,
    columns: &mut BitRow,
) -> bool
    requires lengths { (length layers.old ≡ size graph.now) × (length order.now ≡ size graph.now)
        × (length columns.old ≡ size graph.now) }
    requires square { HasSquare (size graph.now) sets.old }
    requires taken { TakenUpTo graph.now (slice_index layers.old) NONE layer 0 (entry sets.old)
        (slice_index order.now) basis.now }
    ensures taken { TakenUpTo graph.now (slice_index layers.new) NONE layer (size graph.now)
        (entry sets.new) (slice_index order.now) basis.now }
    ensures square { HasSquare (size graph.now) sets.new }
    ensures length { length columns.new ≡ length columns.old }
    ensures fewer { result ≡ true → untaken NONE layers.new + 1 ≤ untaken NONE layers.old }
    ensures same { result ≡ false → (layers.new ≡ layers.old) × (sets.new ≡ sets.old) }
    ensures alone { basis.now.has_added ≡ false →
        AreAlone graph.now (slice_index layers.old) layer (entry sets.old) →
        AreAlone graph.now (slice_index layers.new) layer (entry sets.new) }
{
    let mut found = false;
    'vertices: for u in 0..graph.len() {
        found |= take_next(graph, layer, u, layers, basis, order, sets, columns);
    }
    found
}

/// Writes the least refuter of a vertex, if it was not taken.
fn refute_next<const H: usize>(
    graph: &OpenGraph<H>,
    u: u16,
    layers: &[u16],
    basis: &Basis,
    sets: &mut Rows,
)
    requires vertex { u < size graph.now }
    requires length { length layers.now ≡ size graph.now }
    requires square { HasSquare (size graph.now) sets.old }
    requires rows { basis.now.rows ≡ size graph.now }
    requires unsolved { (v : ℕ) → v < size graph.now → slice_index layers.now v ≡ NONE →
        ¬ HasSolution basis.now v }
    requires refuted { AreRefuted graph.now (slice_index layers.now) NONE u (entry sets.old)
        basis.now }
    ensures refuted { AreRefuted graph.now (slice_index layers.now) NONE (u + 1) (entry sets.new)
        basis.now }
    ensures square { HasSquare (size graph.now) sets.new }
{
    if layers[u as usize] == NONE {
        basis.refuter(u, sets.row_mut(u));
    }
}

/// Writes the least refuters of all vertices that were not taken.
pub fn refute_all<const H: usize>(
    graph: &OpenGraph<H>,
    layers: &[u16],
    basis: &Basis,
    sets: &mut Rows,
)
    requires length { length layers.now ≡ size graph.now }
    requires square { HasSquare (size graph.now) sets.old }
    requires rows { basis.now.rows ≡ size graph.now }
    requires unsolved { (v : ℕ) → v < size graph.now → slice_index layers.now v ≡ NONE →
        ¬ HasSolution basis.now v }
    ensures refuted { AreRefuted graph.now (slice_index layers.now) NONE (size graph.now)
        (entry sets.new) basis.now }
    ensures square { HasSquare (size graph.now) sets.new }
{
    'vertices: for u in 0..graph.len() {
        refute_next(graph, u, layers, basis, sets);
    }
}
