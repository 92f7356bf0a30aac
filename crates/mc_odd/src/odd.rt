//! The vertices with an odd number of neighbours in a set.

ghost use Rattle.std.specs.Prelude.{◌≡◌, ◌<◌, ℕ, ◌&&◌, All, length, nat_eq};
ghost use Rattle.mc_model.specs.Bits.{◌⊻◌, parity};
ghost use Rattle.mc_model.specs.Numbers.{is_member};
ghost use Rattle.mc_model.specs.Graph.{size, joins, odd_neighbourhood};
ghost use Rattle.mc_bits.specs.Rows.{bit_of};

use mc_bits::BitRow;
use mc_elim::row_of;
use mc_graph::{OpenGraph, QSet};

/// Changes the bit of each listed vertex, once for each place where it is listed.
fn flip_all(listed: &[u16], bits: &mut BitRow)
    requires { All (λ v. v < length bits.old) listed.now }
    ensures bits { (v : ℕ) → bit_of bits.new v ≡
        (bit_of bits.old v ⊻ parity listed.now (nat_eq v)) }
    ensures length { length bits.new ≡ length bits.old }
{
    'listed: for v in listed {
        bits.flip_if(*v, true);
    }
}

/// Changes the bits of the neighbours of a vertex, if told to.
fn flip_neighbours_if<const H: usize>(told: bool, g: &OpenGraph<H>, w: u16, bits: &mut BitRow)
    requires vertex { w < size g.now }
    requires long { length bits.old ≡ size g.now }
    ensures bits { (v : ℕ) → v < size g.now →
        bit_of bits.new v ≡ (told && joins g.now.edges v w) ⊻ bit_of bits.old v }
    ensures length { length bits.new ≡ length bits.old }
{
    if told {
        flip_all(g.neighbours(w), bits);
    }
}

/// A bit for each vertex: whether it has an odd number of neighbours in the set, which is the odd neighbourhood of the set
/// (Browne, Kashefi, Mhalla and Perdrix 2007). It takes no memory.
pub fn odd_neighbours<const H: usize>(g: &OpenGraph<H>, set: &QSet) -> BitRow
    ensures bits { (v : ℕ) → v < size g.now →
        bit_of result v ≡ odd_neighbourhood g.now (is_member set.now) v }
    ensures length { length result ≡ size g.now }
{
    let members = row_of(set, g.len());
    let mut odd = BitRow::new(g.len());
    'vertices: for w in 0..g.len() {
        flip_neighbours_if(members.bit(w), g, w, &mut odd);
    }
    odd
}
