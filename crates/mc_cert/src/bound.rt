//! The checker of bounds of depth.

ghost use Rattle.std.specs.Prelude.{◌≡◌, ◌<◌, ◌≤◌, ◌↔◌, ◌+◌, ◌-◌, ◌||◌, ℕ, All, None};
ghost use Rattle.std.specs.Prelude.{length};
ghost use Rattle.std.specs.Prelude.{nat_eq, nat_le, nat_lt};
ghost use Rattle.std.specs.List.{list_any};
ghost use Rattle.mc_model.specs.Numbers.{numbers_from, is_member};
ghost use Rattle.mc_model.specs.Bits.{Bits};
ghost use Rattle.mc_model.specs.Graph.{size, is_output, odd_neighbourhood};
ghost use Rattle.mc_model.specs.Flow.{IsFlow, depth_of};
ghost use Rattle.mc_bits.specs.Rows.{bit_of};
ghost use Rattle.mc_cert.specs.Rules.{least_broken, first_broken, before_first, breach_of};
ghost use Rattle.mc_cert.specs.BoundRules.{AreBoundRows, stated_in, layer_rules};
ghost use Rattle.mc_cert.specs.BoundRules.{lacks_layer, has_layer, all_layers_rules, is_behind};
ghost use Rattle.mc_cert.specs.BoundRules.{odd_behind, keeping_rules, lacks_set, lacks_sets};
ghost use Rattle.mc_cert.specs.BoundRules.{bound_end_rules, keeping_lines, bound_lines, IsBoundOf};
ghost use Rattle.mc_cert.specs.Bounds.{IsBoundIn};

use crate::rows::Bound;
use crate::verdict::Verdict;
use mc_bits::BitRow;
use mc_graph::OpenGraph;
use mc_odd::odd_neighbours;
use mc_signal::QSet;

/// Whether some vertex has the layer.
fn has_layer(b: &Bound, depth: u32) -> bool
    ensures { result ≡ has_layer b.now.layers depth }
{
    'layers: for i in 0..b.layers() {
        let (_, layer) = b.layer_row(i);
        if depth == layer {
            return true;
        }
    }
    false
}

fn has_bad_layer(depth: u32, layer: u32) -> bool
    ensures { result ≡ (nat_eq layer 0 || nat_lt depth layer) }
{
    layer == 0 || depth < layer
}

/// The least rule that a layer breaks.
fn least_in_layer<const H: usize>(
    g: &OpenGraph<H>,
    depth: u32,
    vertex: u16,
    layer: u32,
) -> Option<u8>
    requires { vertex < size g.now }
    ensures { result ≡ least_broken
        (layer_rules g.now depth (record { vertex = vertex; layer = layer })) }
{
    if g.is_output(vertex) {
        Some(1)
    } else if has_bad_layer(depth, layer) {
        Some(2)
    } else {
        None
    }
}

fn lacks_layer<const H: usize>(g: &OpenGraph<H>, b: &Bound, v: u16) -> bool
    requires { v < size g.now }
    ensures { result ≡ lacks_layer g.now b.now.layers v }
{
    !g.is_output(v) && !b.has_layer(v)
}

/// Whether a vertex that is no output has no layer.
fn lacks_layers<const H: usize>(g: &OpenGraph<H>, b: &Bound) -> bool
    ensures { result ≡ list_any (lacks_layer g.now b.now.layers)
        (numbers_from 0 (size g.now)) }
{
    'vertices: for v in 0..g.len() {
        if lacks_layer(g, b, v) {
            return true;
        }
    }
    false
}

/// The least rule that all layers break together.
fn least_of_layers<const H: usize>(g: &OpenGraph<H>, b: &Bound) -> Option<u8>
    ensures { result ≡ least_broken (all_layers_rules g.now b.now.depth b.now.layers) }
{
    let depth = b.depth();
    if lacks_layers(g, b) {
        Some(3)
    } else if depth != 0 && !has_layer(b, depth) {
        Some(4)
    } else {
        None
    }
}

fn is_behind<const H: usize>(g: &OpenGraph<H>, b: &Bound, k: u32, v: u16) -> bool
    requires { v < size g.now }
    ensures { result ≡ is_behind g.now b.now.layers k v }
{
    g.is_output(v) || b.stated(v) < k
}

fn has_bad_k(depth: u32, k: u32) -> bool
    ensures { result ≡ (nat_eq k 0 || nat_le depth k) }
{
    k == 0 || depth <= k
}

fn is_not_above<const H: usize>(g: &OpenGraph<H>, b: &Bound, k: u32, vertex: u16) -> bool
    requires { vertex < size g.now }
    ensures { result ≡ (is_output g.now vertex || nat_le (stated_in b.now.layers vertex) k) }
{
    g.is_output(vertex) || b.stated(vertex) <= k
}

/// Whether a member of the set is an output or of a layer below `k`.
fn has_behind<const H: usize>(g: &OpenGraph<H>, b: &Bound, k: u32, set: &QSet) -> bool
    requires { All (λ v. v < size g.now) set.now }
    ensures { result ≡ list_any (is_behind g.now b.now.layers k) set.now }
{
    'members: for i in 0..set.len() {
        if is_behind(g, b, k, set.get(i)) {
            return true;
        }
    }
    false
}

/// Whether a vertex, no input, is behind the layer and has an odd number of neighbours in the set.
fn is_odd_behind<const H: usize>(
    g: &OpenGraph<H>,
    b: &Bound,
    k: u32,
    set: &QSet,
    odd: &BitRow,
    w: u16,
) -> bool
    requires vertex { w < size g.now }
    requires bits { (v : ℕ) → v < size g.now →
        bit_of odd.now v ≡ odd_neighbourhood g.now (is_member set.now) v }
    requires length { length odd.now ≡ size g.now }
    ensures { result ≡ odd_behind g.now b.now.layers k set.now w }
{
    odd.bit(w) && w >= g.inputs() && is_behind(g, b, k, w)
}

/// Whether a vertex behind the layer, no input, has an odd number of neighbours in the set.
fn has_odd_behind<const H: usize>(g: &OpenGraph<H>, b: &Bound, k: u32, set: &QSet) -> bool
    ensures { result ≡ list_any (odd_behind g.now b.now.layers k set.now)
        (numbers_from 0 (size g.now)) }
{
    let odd = odd_neighbours(g, set);
    'vertices: for v in 0..g.len() {
        if is_odd_behind(g, b, k, set, &odd, v) {
            return true;
        }
    }
    false
}

/// The least rule that a row breaks.
fn least_in_row<const H: usize>(
    g: &OpenGraph<H>,
    b: &Bound,
    k: u32,
    vertex: u16,
    set: &QSet,
) -> Option<u8>
    requires vertex { vertex < size g.now }
    requires members { All (λ v. v < size g.now) set.now }
    ensures { result ≡ least_broken (keeping_rules g.now b.now.depth b.now.layers
        (record { k = k; vertex = vertex; set = set.now })) }
{
    if has_bad_k(b.depth(), k) {
        Some(5)
    } else if is_not_above(g, b, k, vertex) {
        Some(6)
    } else if !set.has(vertex) {
        Some(7)
    } else if has_behind(g, b, k, set) {
        Some(8)
    } else if has_odd_behind(g, b, k, set) {
        Some(9)
    } else {
        None
    }
}

fn lacks_set(b: &Bound, k: u32, u: u16) -> bool
    ensures { result ≡ lacks_set b.now.layers b.now.rows k u }
{
    k < b.stated(u) && !b.has(k, u)
}

/// Whether a vertex of a layer above `k` has no row for it.
fn lacks_sets<const H: usize>(g: &OpenGraph<H>, b: &Bound, k: u32) -> bool
    ensures { result ≡ lacks_sets g.now b.now.layers b.now.rows k }
{
    'vertices: for u in 0..g.len() {
        if lacks_set(b, k, u) {
            return true;
        }
    }
    false
}

/// Whether a row lacks for some layer below the depth.
fn lacks_rows<const H: usize>(g: &OpenGraph<H>, b: &Bound) -> bool
    ensures { result ≡ list_any (lacks_sets g.now b.now.layers b.now.rows)
        (numbers_from 1 (b.now.depth - 1)) }
{
    'layers: for k in 1..b.depth() {
        if lacks_sets(g, b, k) {
            return true;
        }
    }
    false
}

/// The rule that all rows break together.
fn least_at_end<const H: usize>(g: &OpenGraph<H>, b: &Bound) -> Option<u8>
    ensures { result ≡
        least_broken (bound_end_rules g.now b.now.depth b.now.layers b.now.rows) }
{
    if lacks_rows(g, b) { Some(10) } else { None }
}

/// What the rows break, the first of which has the number `first`.
fn check_rows<const H: usize>(g: &OpenGraph<H>, b: &Bound, first: u32) -> Verdict
    requires rows { AreBoundRows g.now b.now.rows }
    requires few { length b.now.rows + first < 4294967296 }
    ensures { breach_of result ≡
        first_broken first (keeping_lines g.now b.now.depth b.now.layers b.now.rows) }
{
    'rows: for i in 0..b.len() {
        let (k, vertex, set) = b.row(i);
        if let Some(rule) = least_in_row(g, b, k, vertex, set) {
            return Verdict::No {
                row: i as u32 + first,
                rule,
            };
        }
    }
    Verdict::of(b.len() as u32 + first, least_at_end(g, b))
}

/// What the layers break together, and then the rows.
fn check_behind<const H: usize>(g: &OpenGraph<H>, b: &Bound, first: u32) -> Verdict
    requires rows { AreBoundRows g.now b.now.rows }
    requires few { length b.now.rows + first < 4294967296 }
    ensures { breach_of result ≡
        first_broken first (before_first (all_layers_rules g.now b.now.depth b.now.layers)
        (keeping_lines g.now b.now.depth b.now.layers b.now.rows)) }
{
    if let Some(rule) = least_of_layers(g, b) {
        return Verdict::No { row: first, rule };
    }
    check_rows(g, b, first)
}

/// What the rows break.
fn judged<const H: usize>(g: &OpenGraph<H>, b: &Bound) -> Verdict
    requires layers { All (λ r. r.vertex < size g.now) b.now.layers }
    requires rows { AreBoundRows g.now b.now.rows }
    requires few { length b.now.layers + length b.now.rows < 4294967295 }
    ensures { breach_of result ≡
        first_broken 1 (bound_lines g.now b.now.depth b.now.layers b.now.rows) }
{
    'layers: for i in 0..b.layers() {
        let (vertex, layer) = b.layer_row(i);
        if let Some(rule) = least_in_layer(g, b.depth(), vertex, layer) {
            return Verdict::No {
                row: i as u32 + 1,
                rule,
            };
        }
    }
    check_behind(g, b, b.layers() as u32 + 1)
}

/// Whether the rows are a bound of the stated depth, below which then no flow of the graph has its own. It takes no memory.
pub fn check_bound<const H: usize>(g: &OpenGraph<H>, b: &Bound) -> Verdict
    requires { IsBoundIn g.now b.now }
    ensures first { breach_of result ≡
        first_broken 1 (bound_lines g.now b.now.depth b.now.layers b.now.rows) }
    ensures yes { (breach_of result ≡ None) ↔
        IsBoundOf g.now b.now.depth b.now.layers b.now.rows }
    ensures flows { (breach_of result ≡ None) → (sets : ℕ → Bits) (layer : ℕ → ℕ) →
        IsFlow g.now sets layer → b.now.depth ≤ depth_of g.now layer }
{
    // the proof needs that no vertex has two layers, nor two sets for a layer
    let _counts = (b.layers(), b.len());
    judged(g, b)
}
