//! How many gates are extracted.

ghost use Rattle.std.specs.Prelude.{◌≡◌, ◌<◌, ◌≤◌, cond, length};
ghost use Rattle.mc_model.specs.Graph.{size, fixed_corrections, corrections_at};
ghost use Rattle.mc_extract.specs.Extracted.{gate_count};

use mc_graph::OpenGraph;

fn one_if(told: bool) -> u32
    ensures count { result ≡ cond told 1 0 }
    ensures few { result ≤ 1 }
{
    if told { 1 } else { 0 }
}

fn count_fixed_at<const H: usize>(g: &OpenGraph<H>, v: u16) -> u32
    requires { v < size g.now }
    ensures count { result ≡ length (corrections_at g.now v) }
    ensures few { result ≤ 2 }
{
    let fixed = g.fixed(v);
    one_if(fixed.x) + one_if(fixed.z)
}

fn count_fixed<const H: usize>(g: &OpenGraph<H>) -> u32
    ensures count { result ≡ length (fixed_corrections g.now) }
    ensures few { result ≤ 512 }
{
    let mut count = 0;
    'vertices: for v in 0..g.len() {
        count += count_fixed_at(g, v);
    }
    count
}

/// How many gates are extracted from a graph: its edges, and twice its fixed corrections. A circuit has room for 32,768.
pub fn gates_to_extract<const H: usize>(g: &OpenGraph<H>) -> u32
    ensures { result ≡ gate_count g.now }
{
    let _count = g.len();
    let edges = g.edge_count();
    edges + 2 * count_fixed(g)
}
