//! Which vertices are joined, while a graph is made.

ghost use Rattle.std.specs.Prelude.{◌≡◌, ◌≢◌, ℕ, ◌+◌, ◌*◌, ◌<◌, ◌≤◌, IfOk, false};
ghost use Rattle.std.specs.Prelude.{length, map, nat_eq, slice_index_or};
ghost use Rattle.mc_model.specs.Numbers.{numbers_from, numbers_where};
ghost use Rattle.mc_model.specs.Bits.{◌⊻◌, same_pair};
ghost use Rattle.mc_graph.specs.Links.{linked, AreLinks};

use mc_lists::push_if;
use mc_model::Memory;
use std::alloc::Global;
use std::marker::Model;

/// The most vertices of a graph.
pub(crate) const MOST_VERTICES: u16 = 256;

/// Pairs of vertices that are joined, by a mark for each pair in either order. They are seen as the list of the marks.
#[derive(Drop)]
pub(crate) struct Links {
    marks: Vec<bool>,
}

impl Model for Links {
    ghost use Rattle.std.specs.Prelude.{List, Bool};
    ghost use Rattle.mc_graph.specs.Links.{AreLinks};

    ghost Value = { List Bool };

    ghost view = { λ l. l.marks.items };

    ghost invariant = { λ l. AreLinks l.marks.items };
}

/// The place of a pair's mark.
fn place(v: u16, w: u16) -> usize
    requires { (v < 256) × (w < 256) }
    ensures { result ≡ 256 * v + w }
{
    256 * v as usize + w as usize
}

fn flip(marks: &mut [bool], at: usize)
    requires { at < length marks.old }
    ensures long { length marks.new ≡ length marks.old }
    ensures bits { (k : ℕ) →
        slice_index_or marks.new k false ≡ (slice_index_or marks.old k false ⊻ nat_eq k at) }
{
    marks[at] = !marks[at];
}

/// Joins two vertices, or parts them where they are joined.
fn toggle_marks(marks: &mut [bool], v: u16, w: u16)
    requires long { length marks.old ≡ 65_536 }
    requires vertices { (v < 256) × (w < 256) × (v ≢ w) }
    ensures long { length marks.new ≡ 65_536 }
    ensures pairs { (i j : ℕ) → linked marks.new i j ≡ (same_pair i j v w ⊻ linked marks.old i j) }
{
    flip(marks, place(v, w));
    flip(marks, place(w, v));
}

impl Links {
    /// No vertices that are joined.
    pub(crate) fn new(alloc: Global) -> Result<Links, Memory>
        ensures none { IfOk result (λ links. (v w : ℕ) → linked links v w ≡ false) }
        ensures valid { IfOk result (λ links. AreLinks links) }
    {
        match vec![in alloc; false; 65_536] {
            Ok(marks) => Ok(Links { marks }),
            Err(_) => Err(Memory),
        }
    }

    /// Whether two vertices are joined.
    pub(crate) fn has(&self, v: u16, w: u16) -> bool
        requires { (v < 256) × (w < 256) }
        ensures { result ≡ linked self.now v w }
    {
        self.marks[place(v, w)]
    }

    /// Joins two vertices, or parts them where they are joined.
    pub(crate) fn toggle(&mut self, v: u16, w: u16)
        requires { (v < 256) × (w < 256) × (v ≢ w) }
        ensures pairs { (i j : ℕ) → linked self.new i j ≡ (same_pair i j v w ⊻ linked self.old i j) }
        ensures valid { AreLinks self.new }
    {
        toggle_marks(&mut self.marks, v, w);
    }

    /// The vertices below a bound that are joined to a vertex, rising.
    fn row(&self, alloc: Global, count: u16, v: u16) -> Result<Vec<u16>, Memory>
        requires { (v < count) × (count ≤ 256) }
        ensures { IfOk result (λ row. row.items ≡ numbers_where (linked self.now v) count) }
    {
        let mut row = Vec::new(alloc);
        'vertices: for w in 0..count {
            push_if(&mut row, self.has(v, w), w)?;
        }
        Ok(row)
    }

    /// Of each vertex below a bound, the vertices below it that are joined to it, rising.
    pub(crate) fn rows(&self, alloc: Global, count: u16) -> Result<Vec<Vec<u16>>, Memory>
        requires { count ≤ 256 }
        ensures { IfOk result (λ rows. map (λ r. r.items) rows.items
            ≡ map (λ v. numbers_where (linked self.now v) count) (numbers_from 0 count)) }
    {
        let mut rows = Vec::new(alloc);
        'vertices: for v in 0..count {
            let row = self.row(alloc, count, v)?;
            let Ok(()) = rows.push(row) else {
                return Err(Memory);
            };
        }
        Ok(rows)
    }
}
