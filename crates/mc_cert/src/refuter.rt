//! The checker of refuters.

ghost use Rattle.std.specs.Prelude.{◌≡◌, ◌<◌, ◌↔◌, None, length, not};
ghost use Rattle.std.specs.List.{list_any};
ghost use Rattle.mc_model.specs.Numbers.{numbers_from};
ghost use Rattle.mc_model.specs.Graph.{size};
ghost use Rattle.mc_graph.specs.Refuters.{AreRefuterLines, IsRefuterOf, refuted_in};
ghost use Rattle.mc_cert.specs.Rules.{least_broken, first_broken, breach_of};
ghost use Rattle.mc_cert.specs.RefuterRules.{odd_outside, refuter_rules, refuter_end_rules};
ghost use Rattle.mc_cert.specs.RefuterRules.{refuter_lines};

use crate::odd::is_odd;
use crate::verdict::Verdict;
use mc_graph::{OpenGraph, Refuter};
use mc_signal::QSet;

/// Whether a member of the set has no row.
fn has_outsider(r: &Refuter, set: &QSet) -> bool
    ensures { result ≡ list_any (λ v. not (refuted_in r.now v)) set.now }
{
    'members: for i in 0..set.len() {
        if !r.has(set.get(i)) {
            return true;
        }
    }
    false
}

fn is_odd_outside<const H: usize>(g: &OpenGraph<H>, r: &Refuter, set: &QSet, w: u16) -> bool
    requires { w < size g.now }
    ensures { result ≡ odd_outside g.now (refuted_in r.now) set.now w }
{
    w >= g.inputs() && !r.has(w) && is_odd(g, set, w)
}

/// Whether a vertex outside, no input, has an odd number of neighbours in the set.
fn has_odd_outside<const H: usize>(g: &OpenGraph<H>, r: &Refuter, set: &QSet) -> bool
    ensures { result ≡ list_any (odd_outside g.now (refuted_in r.now) set.now)
        (numbers_from 0 (size g.now)) }
{
    'vertices: for v in 0..g.len() {
        if is_odd_outside(g, r, set, v) {
            return true;
        }
    }
    false
}

/// The least rule that a row breaks.
fn least_in_row<const H: usize>(
    g: &OpenGraph<H>,
    r: &Refuter,
    vertex: u16,
    set: &QSet,
) -> Option<u8>
    requires { vertex < size g.now }
    ensures { result ≡ least_broken (refuter_rules g.now r.now
        (record { vertex = vertex; set = set.now })) }
{
    if g.is_output(vertex) {
        Some(2)
    } else if !set.has(vertex) {
        Some(3)
    } else if has_outsider(r, set) {
        Some(4)
    } else if has_odd_outside(g, r, set) {
        Some(5)
    } else {
        None
    }
}

/// The rule that there is a row.
fn least_at_end(r: &Refuter) -> Option<u8>
    ensures { result ≡ least_broken (refuter_end_rules r.now) }
{
    if r.len() == 0 { Some(1) } else { None }
}

/// What the rows break.
fn judged<const H: usize>(g: &OpenGraph<H>, r: &Refuter) -> Verdict
    requires rows { AreRefuterLines g.now r.now }
    requires few { length r.now < 4294967295 }
    ensures { breach_of result ≡ first_broken 1 (refuter_lines g.now r.now) }
{
    'rows: for i in 0..r.len() {
        let (vertex, set) = r.row(i);
        if let Some(rule) = least_in_row(g, r, vertex, set) {
            return Verdict::No {
                row: i as u32 + 1,
                rule,
            };
        }
    }
    Verdict::of(r.len() as u32 + 1, least_at_end(r))
}

/// Whether the rows are a refuter of the graph, which then has no generalised flow. It takes no
/// memory.
pub fn check_refuter<const H: usize>(g: &OpenGraph<H>, r: &Refuter) -> Verdict
    requires { AreRefuterLines g.now r.now }
    ensures first { breach_of result ≡ first_broken 1 (refuter_lines g.now r.now) }
    ensures yes { (breach_of result ≡ None) ↔ IsRefuterOf g.now r.now }
{
    // the proof needs that no two rows are of the same vertex
    let _counts = (g.len(), r.len());
    judged(g, r)
}
