//! The checker of stuck sets.

ghost use Rattle.std.specs.Prelude.{◌≡◌, ◌<◌, ◌↔◌, All, None, count_by};
ghost use Rattle.std.specs.List.{list_any};
ghost use Rattle.mc_model.specs.Numbers.{numbers_from, is_member};
ghost use Rattle.mc_model.specs.Graph.{size, is_output};
ghost use Rattle.mc_model.specs.Flow.{IsStuckSet};
ghost use Rattle.mc_cert.specs.Rules.{least_broken, first_broken, breach_of};
ghost use Rattle.mc_cert.specs.StuckRules.{has_one_inside, stuck_rules, stuck_lines};

use crate::verdict::Verdict;
use mc_graph::{OpenGraph, Stuck};
use mc_signal::QSet;

fn has_output<const H: usize>(g: &OpenGraph<H>, set: &QSet) -> bool
    requires { All (λ v. v < size g.now) set.now }
    ensures { result ≡ list_any (is_output g.now) set.now }
{
    'members: for i in 0..set.len() {
        if g.is_output(set.get(i)) {
            return true;
        }
    }
    false
}

/// How many of the listed vertices are in the set.
fn members_in(row: &[u16], set: &QSet) -> usize
    ensures { result ≡ count_by (is_member set.now) row.now }
{
    row.iter().filter(|v| set.has(**v)).count()
}

fn has_one_inside<const H: usize>(g: &OpenGraph<H>, set: &QSet, w: u16) -> bool
    requires { w < size g.now }
    ensures { result ≡ has_one_inside g.now (is_member set.now) w }
{
    w >= g.inputs() && !set.has(w) && members_in(g.neighbours(w), set) == 1
}

/// Whether a vertex outside the set, no input, has exactly one neighbour in it.
fn some_has_one_inside<const H: usize>(g: &OpenGraph<H>, set: &QSet) -> bool
    ensures { result ≡ list_any (has_one_inside g.now (is_member set.now))
        (numbers_from 0 (size g.now)) }
{
    'vertices: for v in 0..g.len() {
        if has_one_inside(g, set, v) {
            return true;
        }
    }
    false
}

fn least_in_row<const H: usize>(g: &OpenGraph<H>, set: &QSet) -> Option<u8>
    requires { All (λ v. v < size g.now) set.now }
    ensures { result ≡ least_broken (stuck_rules g.now set.now) }
{
    if set.len() == 0 {
        Some(1)
    } else if has_output(g, set) {
        Some(2)
    } else if some_has_one_inside(g, set) {
        Some(3)
    } else {
        None
    }
}

/// Whether the set is a stuck set of the graph, which then has no causal flow (Danos and Kashefi
/// 2006). It takes no memory.
pub fn check_stuck<const H: usize>(g: &OpenGraph<H>, s: &Stuck) -> Verdict
    requires { All (λ v. v < size g.now) s.now }
    ensures first { breach_of result ≡ first_broken 1 (stuck_lines g.now s.now) }
    ensures yes { (breach_of result ≡ None) ↔ IsStuckSet g.now (is_member s.now) }
{
    Verdict::of(1, least_in_row(g, s.set()))
}
