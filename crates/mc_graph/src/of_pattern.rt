//! The graph of a pattern.

ghost use Rattle.std.specs.Prelude.{◌≡◌, IfOk};
ghost use Rattle.mc_model.specs.Graph.{graph_of as graph};

use crate::graph::OpenGraph;
use crate::sums::{labels_of, links_of};
use mc_model::Memory;
use mc_pattern::Pattern;
use std::alloc::Global;

/// The open graph of a pattern (Danos and Kashefi 2006): its qubits, and the pairs that are entangled an odd number of times.
/// Where every outcome is 0, constants of signals turn the angles of the measured qubits and correct the others.
pub fn graph_of<const H: usize>(alloc: Global, p: &Pattern<H>) -> Result<OpenGraph<H>, Memory>
    ensures { IfOk result (λ graph_of_p. graph_of_p ≡ graph H p.now) }
{
    let links = links_of(alloc, p)?;
    let labels = labels_of(alloc, p)?;
    let rows = links.rows(alloc, p.names().len())?;
    let names = p.names().copy()?;
    match p.outputs().to_vec(alloc) {
        Ok(outs) => Ok(OpenGraph {
            names,
            inputs: p.inputs(),
            outs,
            rows,
            labels,
        }),
        Err(_) => Err(Memory),
    }
}
