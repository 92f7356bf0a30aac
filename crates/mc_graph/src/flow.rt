//! Rows of flows.

ghost use Rattle.std.specs.Prelude.{◌≡◌, ◌↔◌, ◌<◌, [], ◌∷◌, ◌++◌, true, false, length, Err, Some};
ghost use Rattle.std.specs.Prelude.{slice_get, OnOk, OnErr, IfSome, IfNone, None};
ghost use Rattle.mc_graph.specs.RowLists.{has_row as has_line, row_at, HaveOwnVertices};
ghost use Rattle.mc_graph.specs.Flows.{layer_in};

use crate::end::RowEnd;
use mc_signal::QSet;
use std::alloc::Global;
use std::marker::Model;

/// A row as it is kept.
#[derive(Drop)]
struct KeptRow {
    vertex: u16,
    layer: u32,
    set: QSet,
}

/// A vertex, its layer, and the set that corrects it.
#[derive(Clone, Copy)]
pub struct FlowRow<'a> {
    pub vertex: u16,
    pub layer: u32,
    pub set: &'a QSet,
}

/// Rows of a generalised flow (Browne, Kashefi, Mhalla and Perdrix 2007), at most one for each vertex, and a depth. The calls
/// that give or take one say whether it is a flow, and of which graph.
#[derive(Drop)]
pub struct GFlow {
    depth: u32,
    rows: Vec<KeptRow>,
}

impl Model for GFlow {
    ghost use Rattle.std.specs.Prelude.{map};
    ghost use Rattle.mc_graph.specs.Kept.{flow_line};
    ghost use Rattle.mc_graph.specs.RowLists.{HaveOwnVertices};
    ghost use Rattle.mc_graph.specs.Flows.{FlowRows};

    ghost Value = { FlowRows };

    ghost view = { λ f. record { depth = f.depth; rows = map flow_line f.rows.items } };

    ghost invariant = { λ f. HaveOwnVertices (λ r. r.vertex) (map flow_line f.rows.items) };
}

fn has_row(rows: &[KeptRow], vertex: u16) -> bool
    ensures { result ≡ has_line (λ r. r.vertex) rows.now vertex }
{
    rows.iter().any(|row| vertex == row.vertex)
}

impl GFlow {
    /// No rows, and a depth. It takes no memory.
    pub fn new(alloc: Global, depth: u32) -> GFlow
        ensures { result ≡ record { depth = depth; rows = [] } }
    {
        GFlow {
            depth,
            rows: Vec::new(alloc),
        }
    }

    /// Whether a vertex has a row.
    pub fn has(&self, vertex: u16) -> bool
        ensures { result ≡ has_line (λ r. r.vertex) self.now.rows vertex }
    {
        has_row(&self.rows, vertex)
    }

    /// Adds a row, which goes last. `Second` comes exactly where the vertex has a row. A refusal changes nothing.
    pub fn push(&mut self, vertex: u16, layer: u32, set: QSet) -> Result<(), RowEnd>
        ensures ok { OnOk result (self.new ≡ record self.old {
          rows = self.old.rows ++ record { vertex = vertex; layer = layer; set = set } ∷ [];
        }) }
        ensures new { OnOk result (has_line (λ r. r.vertex) self.old.rows vertex ≡ false) }
        ensures second { (result ≡ Err RowEnd.Second) ↔
            (has_line (λ r. r.vertex) self.old.rows vertex ≡ true) }
        ensures err { OnErr result (self.new ≡ self.old) }
    {
        if self.has(vertex) {
            return Err(RowEnd::Second);
        }
        let Ok(()) = self.rows.push(KeptRow { vertex, layer, set }) else {
            return Err(RowEnd::Memory);
        };
        Ok(())
    }

    /// The stated depth.
    pub fn depth(&self) -> u32
        ensures { result ≡ self.now.depth }
    {
        self.depth
    }

    /// How many rows there are, no two of the same vertex.
    pub fn len(&self) -> usize
        ensures len { result ≡ length self.now.rows }
        ensures own { HaveOwnVertices (λ r. r.vertex) self.now.rows }
    {
        self.rows.len()
    }

    /// The row at a place.
    pub fn row(&self, i: usize) -> FlowRow<'_>
        requires { i < length self.now.rows }
        ensures { slice_get self.now.rows i ≡ Some (record {
          vertex = result.vertex;
          layer = result.layer;
          set = result.set.now;
        }) }
    {
        let row = &self.rows[i];
        FlowRow {
            vertex: row.vertex,
            layer: row.layer,
            set: &row.set,
        }
    }

    /// The row of a vertex, if it has one.
    pub fn find(&self, vertex: u16) -> Option<FlowRow<'_>>
        ensures some { IfSome result (λ row. row_at (λ r. r.vertex) self.now.rows vertex ≡
            Some (record { vertex = row.vertex; layer = row.layer; set = row.set.now })) }
        ensures none { IfNone result (row_at (λ r. r.vertex) self.now.rows vertex ≡ None) }
    {
        'rows: for i in 0..self.len() {
            let row = self.row(i);
            if vertex == row.vertex {
                return Some(row);
            }
        }
        None
    }

    /// The layer of a vertex, which is 0 where it has no row.
    pub fn layer_of(&self, vertex: u16) -> u32
        ensures { result ≡ layer_in self.now.rows vertex }
    {
        match self.find(vertex) {
            Some(row) => row.layer,
            None => 0,
        }
    }
}
