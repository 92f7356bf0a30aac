//! Rows of refuters.

ghost use Rattle.std.specs.Prelude.{◌≡◌, ◌↔◌, ◌<◌, [], ◌∷◌, ◌++◌, true, false, length, Err, Some};
ghost use Rattle.std.specs.Prelude.{slice_get, OnOk, OnErr};
ghost use Rattle.mc_graph.specs.RowLists.{has_row as has_line, HaveOwnVertices};
ghost use Rattle.mc_graph.specs.Refuters.{RefuterLine};

use crate::end::RowEnd;
use mc_signal::QSet;
use std::alloc::Global;
use std::marker::Model;

#[derive(Drop)]
struct RefuterRow {
    vertex: u16,
    set: QSet,
}

/// Vertices that no flow corrects, at most one row for each, with the set that keeps it from being corrected before the
/// others. The calls that give or take one say of which graph it is a refuter.
#[derive(Drop)]
pub struct Refuter {
    rows: Vec<RefuterRow>,
}

impl Model for Refuter {
    ghost use Rattle.std.specs.Prelude.{List, map};
    ghost use Rattle.mc_graph.specs.Kept.{refuter_line};
    ghost use Rattle.mc_graph.specs.RowLists.{HaveOwnVertices};
    ghost use Rattle.mc_graph.specs.Refuters.{RefuterLine};

    ghost Value = { List RefuterLine };

    ghost view = { λ r. map refuter_line r.rows.items };

    ghost invariant = { λ r. HaveOwnVertices (λ l. l.vertex) (map refuter_line r.rows.items) };
}

fn has_row(rows: &[RefuterRow], vertex: u16) -> bool
    ensures { result ≡ has_line (λ r. r.vertex) rows.now vertex }
{
    rows.iter().any(|row| vertex == row.vertex)
}

impl Refuter {
    /// No rows. It takes no memory.
    pub fn new(alloc: Global) -> Refuter
        ensures { result ≡ [] }
    {
        Refuter {
            rows: Vec::new(alloc),
        }
    }

    /// Whether a vertex has a row.
    pub fn has(&self, vertex: u16) -> bool
        ensures { result ≡ has_line (λ r. r.vertex) self.now vertex }
    {
        has_row(&self.rows, vertex)
    }

    /// Adds a row, which goes last. `Second` comes exactly where the vertex has a row. A refusal changes nothing.
    pub fn push(&mut self, vertex: u16, set: QSet) -> Result<(), RowEnd>
        ensures ok { OnOk result (self.new ≡ self.old ++ record { vertex = vertex; set = set } ∷ []) }
        ensures new { OnOk result (has_line (λ r. r.vertex) self.old vertex ≡ false) }
        ensures second { (result ≡ Err RowEnd.Second) ↔
            (has_line (λ r. r.vertex) self.old vertex ≡ true) }
        ensures err { OnErr result (self.new ≡ self.old) }
    {
        if self.has(vertex) {
            return Err(RowEnd::Second);
        }
        let Ok(()) = self.rows.push(RefuterRow { vertex, set }) else {
            return Err(RowEnd::Memory);
        };
        Ok(())
    }

    /// How many rows there are, no two of the same vertex.
    pub fn len(&self) -> usize
        ensures len { result ≡ length self.now }
        ensures own { HaveOwnVertices (λ r. r.vertex) self.now }
    {
        self.rows.len()
    }

    /// The row at a place: a vertex and its set.
    pub fn row(&self, i: usize) -> (u16, &QSet)
        requires { i < length self.now }
        ensures { slice_get self.now i ≡ Some (record { vertex = result.0; set = result.1.now }) }
    {
        let row = &self.rows[i];
        (row.vertex, &row.set)
    }
}
