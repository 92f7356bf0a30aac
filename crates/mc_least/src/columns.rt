//! Columns of the vertices behind a layer, and the basis of them.

ghost use Rattle.std.specs.Prelude.{◌≡◌, ◌<◌, ◌≤◌, ◌&&◌, ℕ, IfOk, [], length};
ghost use Rattle.mc_model.specs.Graph.{size};
ghost use Rattle.mc_graph.specs.Flows.{layer_in};
ghost use Rattle.mc_bits.specs.Rows.{bit_of};
ghost use Rattle.mc_elim.specs.Tables.{row_at};
ghost use Rattle.mc_least.specs.Columns.{is_from, is_candidate, column_of, AreColumns, IsBasisFor};

use mc_bits::{BitRow, Rows, Steps};
use mc_elim::Basis;
use mc_graph::{GFlow, OpenGraph};
use mc_model::Memory;
use std::alloc::Global;
use std::marker::Brand;
use std::sync::ledger::{Blank, Ledger};

fn is_from<const H: usize>(g: &OpenGraph<H>, f: &GFlow, k: u32, v: u16) -> bool
    requires { v < size g.now }
    ensures { result ≡ is_from g.now (layer_in f.now.rows) k v }
{
    !g.is_output(v) && k <= f.layer_of(v)
}

fn is_candidate<const H: usize>(g: &OpenGraph<H>, f: &GFlow, k: u32, w: u16) -> bool
    requires { w < size g.now }
    ensures { result ≡ is_candidate g.now (layer_in f.now.rows) k w }
{
    w >= g.inputs() && !is_from(g, f, k, w)
}

/// Whether a column is that of a candidate, and has the vertex.
fn is_kept<const H: usize>(g: &OpenGraph<H>, f: &GFlow, k: u32, candidate: bool, v: u16) -> bool
    requires { v < size g.now }
    ensures { result ≡ (candidate && is_from g.now (layer_in f.now.rows) k v) }
{
    candidate && is_from(g, f, k, v)
}

/// The neighbours of a candidate from the layer `k` on; for another vertex none.
fn column<const H: usize>(g: &OpenGraph<H>, f: &GFlow, k: u32, w: u16) -> BitRow
    requires { w < size g.now }
    ensures bits { (v : ℕ) → v < size g.now →
        bit_of result v ≡ column_of g.now (layer_in f.now.rows) k w v }
    ensures length { length result ≡ size g.now }
{
    let candidate = is_candidate(g, f, k, w);
    let mut column = BitRow::new(g.len());
    let neighbours = g.neighbours(w);
    'neighbours: for v in neighbours {
        column.flip_if(*v, is_kept(g, f, k, candidate, *v));
    }
    column
}

/// Writes the columns of all vertices.
fn write_columns<const H: usize>(g: &OpenGraph<H>, f: &GFlow, k: u32, columns: &mut Rows)
    requires { AreColumns g.now (layer_in f.now.rows) k 0 columns.old }
    ensures { AreColumns g.now (layer_in f.now.rows) k (size g.now) columns.new }
{
    'vertices: for w in 0..g.len() {
        *columns.row_mut(w) = column(g, f, k, w);
    }
}

/// A basis of the columns of all vertices.
pub(crate) fn basis_for<const H: usize>(
    alloc: Global,
    g: &OpenGraph<H>,
    f: &GFlow,
    k: u32,
) -> Result<Basis, Memory>
    ensures { IfOk result (IsBasisFor g.now (layer_in f.now.rows) k) }
{
    let n = g.len();
    let mut columns = Rows::new(alloc, n, n)?;
    write_columns(g, f, k, &mut columns);
    basis_of(alloc, &columns, n)
}

/// A basis of rows of bits as its columns.
fn basis_of(alloc: Global, columns: &Rows, n: u16) -> Result<Basis, Memory>
    requires small { n ≤ 256 }
    requires count { length columns.now ≡ n }
    requires width { (i : ℕ) → i < n → length (row_at columns.now i) ≡ n }
    ensures { IfOk result (λ basis. (basis.rows ≡ n) × (basis.columns ≡ columns.now)) }
{
    counted::<Brand>(alloc, columns, n, Blank::new(1))
}

/// The same, with a blank for a count that nobody reads.
fn counted<L: Ledger>(alloc: Global, columns: &Rows, n: u16, blank: Blank) -> Result<Basis, Memory>
    requires small { n ≤ 256 }
    requires count { length columns.now ≡ n }
    requires width { (i : ℕ) → i < n → length (row_at columns.now i) ≡ n }
    requires name { blank.name ≡ L.name }
    requires parts { (blank.parts ≡ L.parts) × (L.parts ≡ 1) }
    ensures { IfOk result (λ basis. (basis.rows ≡ n) × (basis.columns ≡ columns.now)) }
{
    let mut steps = Steps::<L>::new(blank);
    let mut basis = Basis::new(alloc, n, n)?;
    insert_all(columns, n, &mut basis, &mut steps);
    Ok(basis)
}

/// Inserts all rows as columns into a basis that has none.
fn insert_all<L: Ledger>(columns: &Rows, n: u16, basis: &mut Basis, steps: &mut Steps<L>)
    requires count { length columns.now ≡ n }
    requires width { (i : ℕ) → i < n → length (row_at columns.now i) ≡ n }
    requires sizes { (basis.old.rows ≡ n) × (basis.old.room ≡ n) }
    requires empty { basis.old.columns ≡ [] }
    ensures rows { basis.new.rows ≡ n }
    ensures columns { basis.new.columns ≡ columns.now }
{
    'columns: for w in 0..n {
        basis.insert(columns.row(w), steps);
    }
}
