//! Odd neighbourhoods.

ghost use Rattle.std.specs.Prelude.{◌≡◌, ◌<◌};
ghost use Rattle.std.specs.List.{list_any};
ghost use Rattle.mc_model.specs.Numbers.{is_member};
ghost use Rattle.mc_model.specs.Bits.{parity};
ghost use Rattle.mc_model.specs.Graph.{size, is_input, odd_neighbourhood};

use mc_graph::OpenGraph;
use mc_signal::QSet;

/// Whether an odd number of the listed vertices are in the set.
fn is_odd_in(row: &[u16], set: &QSet) -> bool
    ensures { result ≡ parity row.now (is_member set.now) }
{
    let mut odd = false;
    'row: for v in row {
        odd ^= set.has(*v);
    }
    odd
}

/// Whether a vertex has an odd number of neighbours in the set.
pub(crate) fn is_odd<const H: usize>(g: &OpenGraph<H>, set: &QSet, v: u16) -> bool
    requires { v < size g.now }
    ensures { result ≡ odd_neighbourhood g.now (is_member set.now) v }
{
    is_odd_in(g.neighbours(v), set)
}

/// Whether a member of the set is an input.
pub(crate) fn has_input<const H: usize>(g: &OpenGraph<H>, set: &QSet) -> bool
    ensures { result ≡ list_any (is_input g.now) set.now }
{
    'members: for i in 0..set.len() {
        if set.get(i) < g.inputs() {
            return true;
        }
    }
    false
}
