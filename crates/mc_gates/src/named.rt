//! The wires of a lowered circuit, and its outputs.

ghost use Rattle.std.specs.Prelude.{◌≡◌, ◌<◌, ◌≤◌, ◌++◌, ◌∷◌, [], All, IfOk, OnOk, length, map, take};
ghost use Rattle.mc_model.specs.Numbers.{numbers_from};
ghost use Rattle.mc_gates.specs.Steps.{wire_at};

use crate::list::GateList;
use crate::step::wire;
use mc_circuit::CircuitBuilder;
use mc_model::Memory;
use mc_names::{Name, Names};
use std::alloc::Global;

fn add(names: &mut Names, name: Name) -> Result<(), Memory>
    ensures { OnOk result (names.new ≡ names.old ++ name ∷ []) }
{
    match names.add(name) {
        Ok(_) => Ok(()),
        // no name stands twice
        Err(_) => Err(Memory),
    }
}

/// The first so many of the names.
fn first_names(alloc: Global, names: &Names, count: u16) -> Result<Names, Memory>
    requires { count ≤ length names.now }
    ensures { IfOk result (λ first. first ≡ take count names.now) }
{
    let mut first = Names::new(alloc);
    'names: for number in 0..count {
        add(&mut first, names.name(number))?;
    }
    Ok(first)
}

/// Adds a wire that is no input.
fn plus(circuit: &mut CircuitBuilder<4>, name: Name) -> Result<(), Memory>
    requires { circuit.old.gates ≡ [] }
    ensures { OnOk result (circuit.new ≡ record circuit.old { names = circuit.old.names ++ name ∷ [] }) }
{
    match circuit.plus(name) {
        Ok(_) => Ok(()),
        // no name stands twice
        Err(_) => Err(Memory),
    }
}

/// A circuit with the wires of a gate list, and without gates.
pub(crate) fn without_gates(alloc: Global, g: &GateList) -> Result<CircuitBuilder<4>, Memory>
    ensures { IfOk result (λ circuit. circuit ≡ record {
      names = g.now.names;
      inputs = g.now.inputs;
      outputs = [];
      gates = [];
    }) }
{
    let names = g.names();
    let inputs = g.inputs();
    let mut circuit = CircuitBuilder::new(alloc, first_names(alloc, names, inputs)?);
    'wires: for v in inputs..names.len() {
        plus(&mut circuit, names.name(v))?;
    }
    Ok(circuit)
}

/// The numbers below a bound, in order: each name stands for its own wire.
pub(crate) fn in_order(alloc: Global, count: u16) -> Result<Vec<u16>, Memory>
    ensures { IfOk result (λ at. at.items ≡ numbers_from 0 count) }
{
    let mut at = Vec::new(alloc);
    'numbers: for number in 0..count {
        let Ok(()) = at.push(number) else {
            return Err(Memory);
        };
    }
    Ok(at)
}

/// The wires that the names of a list stand for.
pub(crate) fn wires_of(alloc: Global, at: &[u16], list: &[u16]) -> Result<Vec<u16>, Memory>
    requires { All (λ v. v < length at.now) list.now }
    ensures { IfOk result (λ wires. wires.items ≡ map (wire_at at.now) list.now) }
{
    let mut wires = Vec::new(alloc);
    'list: for v in list {
        let Ok(()) = wires.push(wire(at, *v)) else {
            return Err(Memory);
        };
    }
    Ok(wires)
}
