//! The next of each vertex in the rows of a causal flow.

ghost use Rattle.std.specs.Prelude.{◌≡◌, ◌<◌, IfOk, MatchOption, None, map, slice_get, slice_index_or};
ghost use Rattle.std.specs.Prelude.{length};
ghost use Rattle.mc_model.specs.Numbers.{numbers_from};
ghost use Rattle.mc_graph.specs.RowLists.{row_at};
ghost use Rattle.mc_graph.specs.Flows.{next_in};

use mc_graph::{GFlow, QSet};
use mc_model::Memory;
use std::alloc::Global;

/// The first member of a set, or 0.
fn first_of(set: &QSet) -> u16
    ensures { result ≡ slice_index_or set.now 0 0 }
{
    if set.len() == 0 { 0 } else { set.get(0) }
}

/// The place of the row of a vertex.
fn row_of(f: &GFlow, v: u16) -> Option<usize>
    ensures { MatchOption result (row_at (λ r. r.vertex) f.now.rows v ≡ None)
        (λ i. (i < length f.now.rows) × (row_at (λ r. r.vertex) f.now.rows v ≡ slice_get f.now.rows i)) }
{
    'rows: for i in 0..f.len() {
        if f.row(i).vertex == v {
            return Some(i);
        }
    }
    None
}

/// The first member of the set of a vertex, or 0 where it has no row.
fn next_of(f: &GFlow, v: u16) -> u16
    ensures { result ≡ next_in f.now.rows v }
{
    match row_of(f, v) {
        Some(i) => first_of(f.row(i).set),
        None => 0,
    }
}

/// The next of each of so many vertices.
pub(crate) fn nexts_of(alloc: Global, count: u16, f: &GFlow) -> Result<Vec<u16>, Memory>
    ensures { IfOk result (λ next. next.items ≡ map (next_in f.now.rows) (numbers_from 0 count)) }
{
    let mut next = Vec::new(alloc);
    'vertices: for v in 0..count {
        let Ok(()) = next.push(next_of(f, v)) else {
            return Err(Memory);
        };
    }
    Ok(next)
}
