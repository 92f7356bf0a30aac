//! Gate lists.

ghost use Rattle.std.specs.Prelude.{◌≡◌, map};
ghost use Rattle.mc_gates.specs.Ops.{plain_op};
ghost use Rattle.mc_gates.specs.Lists.{IsGateList};

use crate::op::Op;
use mc_names::Names;
use std::marker::Model;

/// Operations over named wires, of which the first are inputs and the others begin in `(|0> + |1>)/√2`. The operands of an
/// operation are distinct wires, each wire is listed once as an output, and there are at most 32,768 operations.
#[derive(Drop)]
pub struct GateList {
    names: Names,
    inputs: u16,
    ops: Vec<Op>,
    out: Vec<u16>,
}

impl Model for GateList {
    ghost use Rattle.std.specs.Prelude.{map};
    ghost use Rattle.mc_gates.specs.Gates.{GateList as Plain};
    ghost use Rattle.mc_gates.specs.Ops.{plain_op};
    ghost use Rattle.mc_gates.specs.Lists.{IsGateList};

    ghost Value = { Plain };

    ghost view = { λ g. record {
      names = g.names;
      inputs = g.inputs;
      outputs = g.out.items;
      ops = map plain_op g.ops.items;
    } };

    ghost invariant = { λ g. IsGateList (record {
      names = g.names;
      inputs = g.inputs;
      outputs = g.out.items;
      ops = map plain_op g.ops.items;
    }) };
}

impl GateList {
    /// The gate list of these names, of which so many are inputs, these operations and these outputs.
    pub fn new(names: Names, inputs: u16, ops: Vec<Op>, out: Vec<u16>) -> GateList
        requires { IsGateList (record {
          names = names;
          inputs = inputs;
          outputs = out.items;
          ops = map plain_op ops.items;
        }) }
        ensures { result ≡ record {
          names = names;
          inputs = inputs;
          outputs = out.items;
          ops = map plain_op ops.items;
        } }
    {
        GateList {
            names,
            inputs,
            ops,
            out,
        }
    }

    /// The names of the wires.
    pub fn names(&self) -> &Names
        ensures names { result.now ≡ self.now.names }
        ensures valid { IsGateList self.now }
    {
        &self.names
    }

    /// How many of the wires are inputs.
    pub fn inputs(&self) -> u16
        ensures { result ≡ self.now.inputs }
    {
        self.inputs
    }

    /// The operations, in order.
    pub fn ops(&self) -> &[Op]
        ensures { map plain_op result.now ≡ self.now.ops }
    {
        self.ops.as_slice()
    }

    /// The wires in the order of output.
    pub fn out(&self) -> &[u16]
        ensures { result.now ≡ self.now.outputs }
    {
        self.out.as_slice()
    }
}
