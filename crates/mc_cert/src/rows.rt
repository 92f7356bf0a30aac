//! Bounds of depth, and their rows.

ghost use Rattle.std.specs.Prelude.{◌≡◌, ◌↔◌, ◌<◌, [], ◌∷◌, ◌++◌, true, false, length, Err, Some};
ghost use Rattle.std.specs.Prelude.{slice_get, OnOk, OnErr};
ghost use Rattle.std.specs.List.{list_any};
ghost use Rattle.mc_graph.specs.RowLists.{has_row, HaveOwnVertices};
ghost use Rattle.mc_cert.specs.BoundRules.{is_for, stated_in, AreApart};

use indexmap::IndexMap;
use mc_graph::RowEnd;
use mc_signal::QSet;
use std::alloc::Global;
use std::marker::Model;

/// What a set of a bound is for: a vertex, and a layer that the set keeps it from.
#[derive(Clone, Copy, PartialEq, Eq, Hash)]
struct Target {
    k: u32,
    vertex: u16,
}

/// A lower bound of the depth of every flow: a depth, at most one layer for each vertex, and at most one set for each layer
/// and vertex, which keeps the vertex from that layer. The calls that give or take one say of which graph it is a bound.
#[derive(Drop)]
pub struct Bound {
    depth: u32,
    layers: IndexMap<u16, u32>,
    sets: IndexMap<Target, QSet>,
}

impl Model for Bound {
    ghost use Rattle.std.specs.Prelude.{map};
    ghost use Rattle.mc_cert.specs.Kept.{layer_row, set_row};
    ghost use Rattle.mc_cert.specs.Bounds.{BoundRows, AreOwn};

    ghost Value = { BoundRows };

    ghost view = { λ b. record {
      depth = b.depth;
      layers = map layer_row b.layers.entries;
      rows = map set_row b.sets.entries;
    } };

    ghost invariant = { λ b. AreOwn (map layer_row b.layers.entries) (map set_row b.sets.entries) };
}

impl Bound {
    /// No rows, and a depth. It takes no memory.
    pub fn new(alloc: Global, depth: u32) -> Bound
        ensures { result ≡ record { depth = depth; layers = []; rows = [] } }
    {
        Bound {
            depth,
            layers: IndexMap::new(alloc),
            sets: IndexMap::new(alloc),
        }
    }

    /// Whether a vertex has a layer.
    pub fn has_layer(&self, vertex: u16) -> bool
        ensures { result ≡ has_row (λ r. r.vertex) self.now.layers vertex }
    {
        self.layers.contains_key(&vertex)
    }

    /// Whether a vertex has a set for a layer.
    pub fn has(&self, k: u32, vertex: u16) -> bool
        ensures { result ≡ list_any (is_for k vertex) self.now.rows }
    {
        self.sets.contains_key(&Target { k, vertex })
    }

    /// The layer of a vertex; 0 where none is stated.
    pub(crate) fn stated(&self, vertex: u16) -> u32
        ensures { result ≡ stated_in self.now.layers vertex }
    {
        match self.layers.get(&vertex) {
            Some(layer) => *layer,
            None => 0,
        }
    }

    /// Adds the layer of a vertex, which goes last. `Second` comes exactly where the vertex has a layer. A refusal changes
    /// nothing.
    pub fn layer(&mut self, vertex: u16, layer: u32) -> Result<(), RowEnd>
        ensures ok { OnOk result (self.new ≡ record self.old {
          layers = self.old.layers ++ record { vertex = vertex; layer = layer } ∷ [];
        }) }
        ensures new { OnOk result (has_row (λ r. r.vertex) self.old.layers vertex ≡ false) }
        ensures second { (result ≡ Err RowEnd.Second) ↔
            (has_row (λ r. r.vertex) self.old.layers vertex ≡ true) }
        ensures err { OnErr result (self.new ≡ self.old) }
    {
        if self.has_layer(vertex) {
            return Err(RowEnd::Second);
        }
        let Ok(_) = self.layers.insert(vertex, layer) else {
            return Err(RowEnd::Memory);
        };
        Ok(())
    }

    /// Adds the set that keeps a vertex from the layer `k`, which goes last. `Second` comes exactly where the vertex has a
    /// set for that layer. A refusal changes nothing.
    pub fn push(&mut self, k: u32, vertex: u16, set: QSet) -> Result<(), RowEnd>
        ensures ok { OnOk result (self.new ≡ record self.old {
          rows = self.old.rows ++ record { k = k; vertex = vertex; set = set } ∷ [];
        }) }
        ensures new { OnOk result (list_any (is_for k vertex) self.old.rows ≡ false) }
        ensures second { (result ≡ Err RowEnd.Second) ↔
            (list_any (is_for k vertex) self.old.rows ≡ true) }
        ensures err { OnErr result (self.new ≡ self.old) }
    {
        if self.has(k, vertex) {
            return Err(RowEnd::Second);
        }
        let Ok(_) = self.sets.insert(Target { k, vertex }, set) else {
            return Err(RowEnd::Memory);
        };
        Ok(())
    }

    /// The stated depth.
    pub fn depth(&self) -> u32
        ensures { result ≡ self.now.depth }
    {
        self.depth
    }

    /// How many vertices have a layer.
    pub fn layers(&self) -> usize
        ensures len { result ≡ length self.now.layers }
        ensures own { HaveOwnVertices (λ r. r.vertex) self.now.layers }
    {
        self.layers.len()
    }

    /// How many sets there are, no two for the same layer and vertex.
    pub fn len(&self) -> usize
        ensures len { result ≡ length self.now.rows }
        ensures apart { AreApart self.now.rows }
    {
        self.sets.len()
    }

    /// A vertex and its layer, at a place.
    pub fn layer_row(&self, i: usize) -> (u16, u32)
        requires { i < length self.now.layers }
        ensures { slice_get self.now.layers i ≡
            Some (record { vertex = result.0; layer = result.1 }) }
    {
        let (vertex, layer) = self.layers.get_index(i).unwrap();
        (*vertex, *layer)
    }

    /// A layer, a vertex, and the set that keeps the vertex from the layer, at a place.
    pub fn row(&self, i: usize) -> (u32, u16, &QSet)
        requires { i < length self.now.rows }
        ensures { slice_get self.now.rows i ≡
            Some (record { k = result.0; vertex = result.1; set = result.2.now }) }
    {
        let (target, set) = self.sets.get_index(i).unwrap();
        (target.k, target.vertex, set)
    }
}
