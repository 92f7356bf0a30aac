//! Lowering gate lists.

ghost use Rattle.std.specs.Prelude.{◌≡◌, ◌↔◌, ℕ, ◌<◌, ◌≤◌, List, Bool, Err, IfOk, OnOk, [], length, map};
ghost use Rattle.mc_model.specs.Numbers.{numbers_from};
ghost use Rattle.mc_model.specs.Bits.{Bits};
ghost use Rattle.mc_model.specs.Limits.{most_gates};
ghost use Rattle.mc_model.specs.Phase.{doubled};
ghost use Rattle.mc_model.specs.Ring.{ring};
ghost use Rattle.mc_model.specs.Amplitude.{circuit_table};
ghost use Rattle.mc_gates.specs.Gates.{gate_table, OpsFit};
ghost use Rattle.mc_gates.specs.Lowering.{lowered_gates, last_wires};
ghost use Rattle.mc_gates.specs.Ops.{plain_op};
ghost use Rattle.mc_gates.specs.Steps.{wire_at, with_gates};
ghost use Rattle.mc_gates.specs.Lowering.{lowered, lowered_count as count_of, doubling_count};

use crate::count::lowered_count;
use crate::list::GateList;
use crate::named::{in_order, wires_of, without_gates};
use crate::op::Op;
use crate::step::{push_op, trade};
use mc_circuit::{Circuit, CircuitBuilder};
use mc_model::Memory;
use std::alloc::Global;
use thiserror::Error;

/// The most gates of a circuit.
const MOST_GATES: u64 = 32_768;

/// Why a gate list was not lowered.
#[derive(Clone, Copy, Debug, PartialEq, Eq, Error)]
pub enum LowerEnd {
    /// The lowered gates are more than 32,768.
    #[error("the circuit would have {gates} gates")]
    Limit { gates: u64 },
    /// Memory ran out.
    #[error("no memory")]
    Memory,
}

/// Adds the gates of the operations, where `at` has for each name the wire that it stands for, before and then behind them.
fn push_ops(circuit: &mut CircuitBuilder<4>, at: &mut [u16], ops: &[Op]) -> Result<(), Memory>
    requires { OpsFit (length at.old) (map plain_op ops.now) }
    ensures gates { OnOk result (circuit.new ≡
        with_gates circuit.old (lowered_gates (map plain_op ops.now) (wire_at at.old))) }
    ensures wires { OnOk result (wire_at at.new ≡ last_wires (map plain_op ops.now) (wire_at at.old)) }
    ensures long { length at.new ≡ length at.old }
{
    'ops: for op in ops {
        push_op(circuit, at, op)?;
        trade(at, op);
    }
    Ok(())
}

/// The circuit with these outputs.
fn with_outputs(circuit: CircuitBuilder<4>, out: &[u16]) -> Result<Circuit<4>, Memory>
    ensures { IfOk result (λ made. made ≡ record circuit { outputs = out.now }) }
{
    match circuit.finish(out) {
        Ok(circuit) => Ok(circuit),
        // each wire is an output once
        Err(_) => Err(Memory),
    }
}

/// The lowered circuit, made of one without gates, where each name stands for its own wire.
fn circuit_on(
    alloc: Global,
    g: &GateList,
    mut circuit: CircuitBuilder<4>,
    at: &mut [u16],
) -> Result<Circuit<4>, Memory>
    requires wires { circuit ≡ record { names = g.now.names; inputs = g.now.inputs; outputs = []; gates = [] } }
    requires order { at.old ≡ numbers_from 0 (length g.now.names) }
    ensures { IfOk result (λ circuit. circuit ≡ lowered g.now) }
{
    let _list = g.names();
    push_ops(&mut circuit, at, g.ops())?;
    let out = wires_of(alloc, at, g.out())?;
    with_outputs(circuit, &out)
}

/// The lowered circuit, whatever its size.
fn circuit_of(alloc: Global, g: &GateList) -> Result<Circuit<4>, Memory>
    ensures { IfOk result (λ circuit. circuit ≡ lowered g.now) }
{
    let circuit = without_gates(alloc, g)?;
    let mut at = in_order(alloc, g.names().len())?;
    circuit_on(alloc, g, circuit, &mut at)
}

/// The circuit of `J` and CZ gates with the table of a gate list but for a power of two; the names keep their wires, and an
/// exchange of wires makes no gate. `Limit` comes exactly where its gates pass 32,768, and is tested first.
pub fn lower(alloc: Global, g: &GateList) -> Result<Circuit<4>, LowerEnd>
    ensures circuit { IfOk result (λ circuit. circuit ≡ lowered g.now) }
    ensures table { IfOk result (λ circuit. (y : List Bool) (b : Bits) → circuit_table (ring 4) circuit y b
        ≡ doubled (ring 4) (doubling_count g.now.ops) (gate_table (ring 4) g.now y b)) }
    ensures room { OnOk result (count_of g.now.ops ≤ most_gates) }
    ensures limit { (gates : ℕ) → (result ≡ Err (LowerEnd.Limit gates))
        ↔ ((gates ≡ count_of g.now.ops) × (most_gates < gates)) }
{
    let _list = g.names();
    let gates = lowered_count(g.ops());
    if gates > MOST_GATES {
        return Err(LowerEnd::Limit { gates });
    }
    match circuit_of(alloc, g) {
        Ok(circuit) => Ok(circuit),
        Err(Memory) => Err(LowerEnd::Memory),
    }
}
