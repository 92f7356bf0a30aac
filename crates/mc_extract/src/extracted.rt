//! Extraction of circuits.

ghost use Rattle.std.specs.Prelude.{◌≡◌, ◌≤◌, IfOk};
ghost use Rattle.mc_model.specs.Limits.{most_gates};
ghost use Rattle.mc_model.specs.Made.{extracted_circuit};
ghost use Rattle.mc_graph.specs.Flows.{IsCausalFlowOf, next_in, layer_in};
ghost use Rattle.mc_extract.specs.Chains.{number_at};
ghost use Rattle.mc_extract.specs.Written.{planned, IsPlan};
ghost use Rattle.mc_extract.specs.Extracted.{gate_count, HasZeroBranch};

use crate::gates::push_gates;
use crate::named::{outputs_of, with_outputs, without_gates};
use crate::nexts::nexts_of;
use crate::wiring::{all_before, are_first, wires_of};
use mc_circuit::Circuit;
use mc_graph::{GFlow, OpenGraph, order_of};
use mc_model::Memory;
use std::alloc::Global;

/// The circuit that is extracted by these nexts and this order, on these wires.
fn circuit_of<const H: usize>(
    alloc: Global,
    g: &OpenGraph<H>,
    next: &[u16],
    order: &[u16],
    wires: &[u16],
    first: &mut [bool],
) -> Result<Circuit<H>, Memory>
    requires { IsPlan g.now next.now order.now wires.now first.old }
    ensures { IfOk result (λ circuit. circuit ≡ planned H g.now (number_at next.now) order.now) }
{
    let _count = g.len();
    let mut circuit = without_gates(alloc, g, first)?;
    push_gates(g, next, order, wires, first, &mut circuit)?;
    let out = outputs_of(alloc, wires, g.outputs())?;
    let circuit = with_outputs(circuit, &out)?;
    Ok(circuit)
}

/// The circuit of at most 32,768 gates that is extracted by a causal flow (Danos and Kashefi 2006): a chain of vertices, each
/// the next of the one before it, is a wire with the name of its first vertex. Its table is the zero branch of the graph.
pub fn extract<const H: usize>(
    alloc: Global,
    g: &OpenGraph<H>,
    f: &GFlow,
) -> Result<Circuit<H>, Memory>
    requires flow { IsCausalFlowOf g.now f.now }
    requires few { gate_count g.now ≤ most_gates }
    ensures circuit { IfOk result (λ circuit. circuit ≡
        extracted_circuit H g.now (next_in f.now.rows) (layer_in f.now.rows)) }
    ensures table { IfOk result (λ circuit. HasZeroBranch H g.now circuit) }
{
    let count = g.len();
    let next = nexts_of(alloc, count, f)?;
    let order = order_of(alloc, g, f)?;
    let before = all_before(alloc, g, &next)?;
    let wires = wires_of(alloc, g, &next, &before)?;
    let mut first = are_first(alloc, g, &next, &before)?;
    let circuit = circuit_of(alloc, g, &next, &order, &wires, &mut first)?;
    Ok(circuit)
}
