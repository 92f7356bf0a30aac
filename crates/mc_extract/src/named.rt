//! The wires of an extracted circuit, and its outputs.

ghost use Rattle.std.specs.Prelude.{◌≡◌, ◌<◌, ℕ, ◌++◌, ◌∷◌, [], All, IfOk, OnOk, cond, map, length, true};
ghost use Rattle.mc_model.specs.Numbers.{numbers_from, numbers_where};
ghost use Rattle.mc_model.specs.Graph.{size};
ghost use Rattle.mc_extract.specs.Chains.{number_at};
ghost use Rattle.mc_extract.specs.Written.{bit_at, name_at};

use mc_circuit::{Circuit, CircuitBuilder};
use mc_graph::OpenGraph;
use mc_model::Memory;
use mc_names::{Name, Names};
use std::alloc::Global;

fn name_of<const H: usize>(g: &OpenGraph<H>, v: u16) -> Name
    requires { v < size g.now }
    ensures { result ≡ name_at g.now v }
{
    g.names().name(v)
}

fn add(names: &mut Names, name: Name) -> Result<(), Memory>
    ensures { OnOk result (names.new ≡ names.old ++ name ∷ []) }
{
    match names.add(name) {
        Ok(_) => Ok(()),
        // no name stands twice
        Err(_) => Err(Memory),
    }
}

/// The names of the inputs.
fn inputs_of<const H: usize>(alloc: Global, g: &OpenGraph<H>) -> Result<Names, Memory>
    ensures { IfOk result (λ names. names ≡ map (name_at g.now) (numbers_from 0 g.now.inputs)) }
{
    let _count = g.len();
    let mut names = Names::new(alloc);
    'inputs: for v in 0..g.inputs() {
        add(&mut names, name_of(g, v))?;
    }
    Ok(names)
}

/// Adds a wire that is no input, if told to.
fn plus_if<const H: usize>(
    circuit: &mut CircuitBuilder<H>,
    told: bool,
    name: Name,
) -> Result<(), Memory>
    requires { circuit.old.gates ≡ [] }
    ensures { OnOk result (circuit.new ≡ record circuit.old {
      names = circuit.old.names ++ cond told (name ∷ []) [];
    }) }
{
    if !told {
        return Ok(());
    }
    match circuit.plus(name) {
        Ok(_) => Ok(()),
        // no name stands twice
        Err(_) => Err(Memory),
    }
}

fn is_one_of(bits: &[bool], v: u16) -> bool
    requires { v < length bits.now }
    ensures { result ≡ bit_at bits.now v }
{
    bits[v as usize]
}

/// A circuit with the wires of these first vertices, the inputs among them, and without gates.
pub(crate) fn without_gates<const H: usize>(
    alloc: Global,
    g: &OpenGraph<H>,
    first: &[bool],
) -> Result<CircuitBuilder<H>, Memory>
    requires long { length first.now ≡ size g.now }
    requires inputs { (v : ℕ) → v < g.now.inputs → bit_at first.now v ≡ true }
    ensures { IfOk result (λ circuit. circuit ≡ record {
      names = map (name_at g.now) (numbers_where (bit_at first.now) (size g.now));
      inputs = g.now.inputs;
      outputs = [];
      gates = [];
    }) }
{
    let count = g.len();
    let names = inputs_of(alloc, g)?;
    let mut circuit = CircuitBuilder::new(alloc, names);
    'vertices: for v in g.inputs()..count {
        plus_if(&mut circuit, is_one_of(first, v), name_of(g, v))?;
    }
    Ok(circuit)
}

fn wire_at(wires: &[u16], v: u16) -> u16
    requires { v < length wires.now }
    ensures { result ≡ number_at wires.now v }
{
    wires[v as usize]
}

/// The wires of the outputs.
pub(crate) fn outputs_of(alloc: Global, wires: &[u16], outputs: &[u16]) -> Result<Vec<u16>, Memory>
    requires { All (λ v. v < length wires.now) outputs.now }
    ensures { IfOk result (λ out. out.items ≡ map (number_at wires.now) outputs.now) }
{
    let mut out = Vec::new(alloc);
    'outputs: for v in outputs {
        let Ok(()) = out.push(wire_at(wires, *v)) else {
            return Err(Memory);
        };
    }
    Ok(out)
}

/// The circuit with these outputs.
pub(crate) fn with_outputs<const H: usize>(
    circuit: CircuitBuilder<H>,
    out: &[u16],
) -> Result<Circuit<H>, Memory>
    ensures { IfOk result (λ made. made ≡ record circuit.entry { outputs = out.now }) }
{
    match circuit.finish(out) {
        Ok(circuit) => Ok(circuit),
        // each wire is an output once
        Err(_) => Err(Memory),
    }
}
