//! The checker of flows.

ghost use Rattle.std.specs.Prelude.{◌≡◌, ◌<◌, ◌||◌, ◌&&◌, ◌↔◌, All, None, length, nat_eq, nat_lt};
ghost use Rattle.std.specs.List.{list_any};
ghost use Rattle.mc_model.specs.Numbers.{numbers_from};
ghost use Rattle.mc_model.specs.Graph.{size};
ghost use Rattle.mc_graph.specs.Flows.{AreFlowLines, IsFlowOf};
ghost use Rattle.mc_cert.specs.Rules.{least_broken, first_broken, breach_of};
ghost use Rattle.mc_cert.specs.FlowRules.{has_lower_row, is_too_early, odd_early, flow_rules};
ghost use Rattle.mc_cert.specs.FlowRules.{lacks_row, greatest_layer, flow_end_rules, flow_lines};

use crate::odd::{has_input, is_odd};
use crate::verdict::Verdict;
use mc_graph::{GFlow, OpenGraph};
use mc_signal::QSet;

fn is_lower(row_vertex: u16, row_layer: u32, k: u32, v: u16) -> bool
    ensures { result ≡ (nat_eq v row_vertex && nat_lt row_layer k) }
{
    v == row_vertex && row_layer < k
}

/// Whether a vertex has a row of a layer below `k`.
fn has_lower_row(f: &GFlow, k: u32, v: u16) -> bool
    ensures { result ≡ has_lower_row f.now.rows k v }
{
    'rows: for i in 0..f.len() {
        let row = f.row(i);
        if is_lower(row.vertex, row.layer, k, v) {
            return true;
        }
    }
    false
}

/// Whether a vertex is another than that of the row and not later.
fn is_too_early<const H: usize>(
    g: &OpenGraph<H>,
    f: &GFlow,
    vertex: u16,
    layer: u32,
    set: &QSet,
    v: u16,
) -> bool
    requires { v < size g.now }
    ensures { result ≡ is_too_early g.now f.now.rows
        (record { vertex = vertex; layer = layer; set = set.now }) v }
{
    v != vertex && !(g.is_output(v) || has_lower_row(f, layer, v))
}

fn is_odd_early<const H: usize>(
    g: &OpenGraph<H>,
    f: &GFlow,
    vertex: u16,
    layer: u32,
    set: &QSet,
    v: u16,
) -> bool
    requires { v < size g.now }
    ensures { result ≡ odd_early g.now f.now.rows
        (record { vertex = vertex; layer = layer; set = set.now }) v }
{
    is_odd(g, set, v) && is_too_early(g, f, vertex, layer, set, v)
}

fn has_bad_layer(depth: u32, layer: u32) -> bool
    ensures { result ≡ (nat_eq layer 0 || nat_lt depth layer) }
{
    layer == 0 || depth < layer
}

/// Whether another member of the set is not later.
fn has_early_member<const H: usize>(
    g: &OpenGraph<H>,
    f: &GFlow,
    vertex: u16,
    layer: u32,
    set: &QSet,
) -> bool
    requires { All (λ k. k < size g.now) set.now }
    ensures { result ≡ list_any (is_too_early g.now f.now.rows
        (record { vertex = vertex; layer = layer; set = set.now })) set.now }
{
    'members: for i in 0..set.len() {
        if is_too_early(g, f, vertex, layer, set, set.get(i)) {
            return true;
        }
    }
    false
}

/// Whether another vertex that has an odd number of neighbours in the set is not later.
fn has_odd_early<const H: usize>(
    g: &OpenGraph<H>,
    f: &GFlow,
    vertex: u16,
    layer: u32,
    set: &QSet,
) -> bool
    ensures { result ≡ list_any (odd_early g.now f.now.rows
        (record { vertex = vertex; layer = layer; set = set.now })) (numbers_from 0 (size g.now)) }
{
    'vertices: for v in 0..g.len() {
        if is_odd_early(g, f, vertex, layer, set, v) {
            return true;
        }
    }
    false
}

/// The least rule that a row breaks.
fn least_in_row<const H: usize>(
    g: &OpenGraph<H>,
    f: &GFlow,
    vertex: u16,
    layer: u32,
    set: &QSet,
) -> Option<u8>
    requires vertex { vertex < size g.now }
    requires members { All (λ k. k < size g.now) set.now }
    ensures { result ≡ least_broken (flow_rules g.now f.now.depth f.now.rows
        (record { vertex = vertex; layer = layer; set = set.now })) }
{
    if g.is_output(vertex) {
        Some(1)
    } else if has_bad_layer(f.depth(), layer) {
        Some(2)
    } else if has_input(g, set) {
        Some(3)
    } else if set.has(vertex) {
        Some(4)
    } else if !is_odd(g, set, vertex) {
        Some(5)
    } else if has_early_member(g, f, vertex, layer, set) {
        Some(6)
    } else if has_odd_early(g, f, vertex, layer, set) {
        Some(7)
    } else {
        None
    }
}

fn lacks_row<const H: usize>(g: &OpenGraph<H>, f: &GFlow, v: u16) -> bool
    requires { v < size g.now }
    ensures { result ≡ lacks_row g.now f.now.rows v }
{
    !g.is_output(v) && !f.has(v)
}

/// Whether a vertex that is no output has no row.
fn lacks_rows<const H: usize>(g: &OpenGraph<H>, f: &GFlow) -> bool
    ensures { result ≡ list_any (lacks_row g.now f.now.rows) (numbers_from 0 (size g.now)) }
{
    'vertices: for v in 0..g.len() {
        if lacks_row(g, f, v) {
            return true;
        }
    }
    false
}

fn greatest_layer(f: &GFlow) -> u32
    ensures { result ≡ greatest_layer f.now.rows }
{
    let mut most: u32 = 0;
    'rows: for i in 0..f.len() {
        most = most.max(f.row(i).layer);
    }
    most
}

/// The least rule that the rows break together.
fn least_at_end<const H: usize>(g: &OpenGraph<H>, f: &GFlow) -> Option<u8>
    ensures { result ≡ least_broken (flow_end_rules g.now f.now.depth f.now.rows) }
{
    if lacks_rows(g, f) {
        Some(8)
    } else if f.depth() != greatest_layer(f) {
        Some(9)
    } else {
        None
    }
}

/// What the rows break.
fn judged<const H: usize>(g: &OpenGraph<H>, f: &GFlow) -> Verdict
    requires rows { AreFlowLines g.now f.now.rows }
    requires few { length f.now.rows < 4294967295 }
    ensures { breach_of result ≡ first_broken 1 (flow_lines g.now f.now.depth f.now.rows) }
{
    'rows: for i in 0..f.len() {
        let row = f.row(i);
        if let Some(rule) = least_in_row(g, f, row.vertex, row.layer, row.set) {
            return Verdict::No {
                row: i as u32 + 1,
                rule,
            };
        }
    }
    Verdict::of(f.len() as u32 + 1, least_at_end(g, f))
}

/// Whether the rows are a generalised flow of the graph (Browne, Kashefi, Mhalla and Perdrix 2007),
/// one for each vertex that is no output, and the stated depth is its depth. It takes no memory.
pub fn check_flow<const H: usize>(g: &OpenGraph<H>, f: &GFlow) -> Verdict
    requires { AreFlowLines g.now f.now.rows }
    ensures first { breach_of result ≡ first_broken 1 (flow_lines g.now f.now.depth f.now.rows) }
    ensures yes { (breach_of result ≡ None) ↔ IsFlowOf g.now f.now }
{
    // the proof needs that no two rows are of the same vertex
    let _counts = (g.len(), f.len());
    judged(g, f)
}
