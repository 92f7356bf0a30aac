//! Valid circuits.

ghost use Rattle.std.specs.Prelude.{◌≡◌, map};
ghost use Rattle.mc_circuit.specs.Gates.{plain_gate};

use crate::gate::Gate;
use mc_names::Names;
use std::marker::Model;

/// A circuit over named wires, of which the first are inputs and the others begin in `(|0> + |1>)/√2`. Every operand of a
/// gate is a wire, the two of a CZ differ, each wire is listed once as an output, and there are at most 32,768 gates.
#[derive(Drop)]
pub struct Circuit<const H: usize> {
    pub(crate) names: Names,
    pub(crate) inputs: u16,
    pub(crate) gates: Vec<Gate<H>>,
    pub(crate) out: Vec<u16>,
}

impl<const H: usize> Model for Circuit<H> {
    ghost use Rattle.std.specs.Prelude.{map};
    ghost use Rattle.mc_model.specs.Pattern.{Circuit as Plain};
    ghost use Rattle.mc_circuit.specs.Circuits.{IsCircuit};
    ghost use Rattle.mc_circuit.specs.Gates.{plain_gate};

    ghost Value = { Plain };

    ghost view = { λ c. record {
      names = c.names;
      inputs = c.inputs;
      outputs = c.out.items;
      gates = map plain_gate c.gates.items;
    } };

    ghost invariant = { λ c. IsCircuit H (record {
      names = c.names;
      inputs = c.inputs;
      outputs = c.out.items;
      gates = map plain_gate c.gates.items;
    }) };
}

impl<const H: usize> Circuit<H> {
    ghost use Rattle.mc_circuit.specs.Circuits.{IsCircuit};

    /// The names of the wires.
    pub fn names(&self) -> &Names
        ensures names { result.now ≡ self.now.names }
        ensures valid { IsCircuit H self.now }
    {
        &self.names
    }

    /// How many of the wires are inputs.
    pub fn inputs(&self) -> u16
        ensures { result ≡ self.now.inputs }
    {
        self.inputs
    }

    /// The gates, in order.
    pub fn gates(&self) -> &[Gate<H>]
        ensures { map plain_gate result.now ≡ self.now.gates }
    {
        self.gates.as_slice()
    }

    /// The wires in the order of output.
    pub fn out(&self) -> &[u16]
        ensures { result.now ≡ self.now.outputs }
    {
        self.out.as_slice()
    }
}
