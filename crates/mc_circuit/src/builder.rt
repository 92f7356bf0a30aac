//! Building circuits.

ghost use Rattle.std.specs.Prelude.{◌≡◌, ◌↔◌, ℕ, ◌<◌, ◌≤◌, [], ◌∷◌, ◌++◌, length, map, Err};
ghost use Rattle.std.specs.Prelude.{Some};
ghost use Rattle.std.specs.Prelude.{None, OnOk, IfOk, OnErr, IfErr, IsTrue, true};
ghost use Rattle.mc_model.specs.Steps.{is_permitted};
ghost use Rattle.mc_model.specs.Limits.{most_qubits, most_gates};
ghost use Rattle.mc_model.specs.Names.{place_of};
ghost use Rattle.mc_model.specs.Numbers.{ListsOnce};
ghost use Rattle.mc_circuit.specs.Gates.{plain_gate};
ghost use Rattle.mc_circuit.specs.Circuits.{broken_rule, AnglesFit};

use crate::circuit::Circuit;
use crate::gate::Gate;
use mc_lists::lists_once;
use mc_names::{Name, Names, NamesEnd};
use std::alloc::Global;
use std::marker::Model;
use thiserror::Error;

/// The most gates of a circuit.
const MOST_GATES: usize = 32_768;

/// Why a call of a builder was refused.
#[derive(Clone, Copy, Debug, PartialEq, Eq, Error)]
pub enum CircuitEnd {
    #[error("the name stands at {0}")]
    Twice(u16),
    #[error("there are 256 wires")]
    Full,
    #[error("rule {0} is broken")]
    Rule(u8),
    #[error("there are 32,768 gates")]
    Limit,
    #[error("no memory")]
    Memory,
}

/// A circuit that is being built. A contract sees the circuit so far, without outputs.
#[derive(Drop)]
pub struct CircuitBuilder<const H: usize> {
    names: Names,
    inputs: u16,
    gates: Vec<Gate<H>>,
}

impl<const H: usize> Model for CircuitBuilder<H> {
    ghost use Rattle.std.specs.Prelude.{[], map};
    ghost use Rattle.mc_model.specs.Pattern.{Circuit as Plain};
    ghost use Rattle.mc_circuit.specs.Circuits.{IsBegun};
    ghost use Rattle.mc_circuit.specs.Gates.{plain_gate};

    ghost Value = { Plain };

    ghost view = { λ c. record {
      names = c.names;
      inputs = c.inputs;
      outputs = [];
      gates = map plain_gate c.gates.items;
    } };

    ghost invariant = { λ c. IsBegun H (record {
      names = c.names;
      inputs = c.inputs;
      outputs = [];
      gates = map plain_gate c.gates.items;
    }) };
}

/// The least rule that a gate on so many wires breaks, if it breaks one.
fn rule_of<const H: usize>(wires: u16, gate: &Gate<H>) -> Option<u8>
    ensures rule { result ≡ broken_rule wires (plain_gate gate.now) }
    ensures angle { AnglesFit H (plain_gate gate.now ∷ []) }
{
    match *gate {
        Gate::J { wire, angle } => {
            let _steps = angle.steps();
            if wire < wires { None } else { Some(1) }
        }
        Gate::Cz { a, b } => {
            if !(a < wires && b < wires) {
                Some(1)
            } else if a == b {
                Some(2)
            } else {
                None
            }
        }
    }
}

/// Whether a list has each of so many wires once, and no other number.
fn lists_each(wires: u16, out: &[u16]) -> bool
    requires { wires ≤ most_qubits }
    ensures { IsTrue result ↔ ListsOnce wires (λ v. true) out.now }
{
    let due = [true; 256];
    lists_once(out, &due[..wires as usize])
}

impl<const H: usize> CircuitBuilder<H> {
    /// A circuit of the inputs alone.
    pub fn new(alloc: Global, inputs: Names) -> CircuitBuilder<H>
        requires { IsTrue (is_permitted H) }
        ensures { result ≡ record { names = inputs; inputs = length inputs; outputs = []; gates = [] } }
    {
        let count = inputs.len();
        CircuitBuilder {
            names: inputs,
            inputs: count,
            gates: Vec::new(alloc),
        }
    }

    /// Adds a wire that is no input, and gives its number. `Twice` and `Full` come as of names; a refusal changes nothing.
    pub fn plus(&mut self, name: Name) -> Result<u16, CircuitEnd>
        requires { self.old.gates ≡ [] }
        ensures number { IfOk result (λ q. q ≡ length self.old.names) }
        ensures added { OnOk result (self.new ≡ record self.old { names = self.old.names ++ name ∷ [] }) }
        ensures twice { (q : ℕ) → (result ≡ Err (CircuitEnd.Twice q)) ↔ (place_of self.old.names name ≡ Some q) }
        ensures full { (result ≡ Err CircuitEnd.Full) ↔
            ((place_of self.old.names name ≡ None) × (length self.old.names ≡ most_qubits)) }
        ensures room { OnOk result ((place_of self.old.names name ≡ None) × (length self.old.names < most_qubits)) }
        ensures no_other { (n : ℕ) → result ≡ Err (CircuitEnd.Rule n) → ⊥ }
        ensures no_limit { result ≡ Err CircuitEnd.Limit → ⊥ }
        ensures err { OnErr result (self.new ≡ self.old) }
    {
        let number = match self.names.add(name) {
            Ok(number) => number,
            Err(NamesEnd::Twice(number)) => return Err(CircuitEnd::Twice(number)),
            Err(NamesEnd::Full) => return Err(CircuitEnd::Full),
            Err(NamesEnd::Memory) => return Err(CircuitEnd::Memory),
        };
        let _count = self.names.len();
        Ok(number)
    }

    /// Adds a gate. `Rule` gives the least broken rule: 1, an operand is no wire; 2, both operands of a CZ are one wire.
    /// Else `Limit` comes where there are 32,768 gates. A refusal changes nothing.
    pub fn push(&mut self, gate: Gate<H>) -> Result<(), CircuitEnd>
        ensures ok { OnOk result (self.new ≡ record self.old { gates = self.old.gates ++ plain_gate gate.entry ∷ [] }) }
        ensures unbroken { OnOk result (broken_rule (length self.old.names) (plain_gate gate.entry) ≡ None) }
        ensures room { OnOk result (length self.old.gates < most_gates) }
        ensures rule { (n : ℕ) → (result ≡ Err (CircuitEnd.Rule n)) ↔
            (broken_rule (length self.old.names) (plain_gate gate.entry) ≡ Some n) }
        ensures limit { (result ≡ Err CircuitEnd.Limit) ↔
            ((broken_rule (length self.old.names) (plain_gate gate.entry) ≡ None)
            × (length self.old.gates ≡ most_gates)) }
        ensures no_twice { (q : ℕ) → result ≡ Err (CircuitEnd.Twice q) → ⊥ }
        ensures no_full { result ≡ Err CircuitEnd.Full → ⊥ }
        ensures err { OnErr result (self.new ≡ self.old) }
    {
        if let Some(rule) = rule_of(self.names.len(), &gate) {
            return Err(CircuitEnd::Rule(rule));
        }
        if self.gates.len() >= MOST_GATES {
            return Err(CircuitEnd::Limit);
        }
        let Ok(_) = self.gates.push(gate) else {
            return Err(CircuitEnd::Memory);
        };
        Ok(())
    }

    /// The circuit with these outputs. `Rule(3)` comes where a wire does not stand there once or another number does.
    /// A refusal hands the builder back as it was.
    pub fn finish(self, out: &[u16]) -> Result<Circuit<H>, (CircuitBuilder<H>, CircuitEnd)>
        ensures circuit { IfOk result (λ circuit. circuit ≡ record self.entry { outputs = out.now }) }
        ensures lists { OnOk result (ListsOnce (length self.entry.names) (λ v. true) out.now) }
        ensures rule { IfErr result (λ refused. (refused.1 ≡ CircuitEnd.Rule 3) ↔
            ¬ (ListsOnce (length self.entry.names) (λ v. true) out.now)) }
        ensures memory_last { IfErr result (λ refused. (refused.1 ≡ CircuitEnd.Memory) ↔
            ListsOnce (length self.entry.names) (λ v. true) out.now) }
        ensures kept { IfErr result (λ refused. refused.0 ≡ self.entry) }
    {
        if !lists_each(self.names.len(), out) {
            return Err((self, CircuitEnd::Rule(3)));
        }
        let alloc = *self.gates.allocator();
        match out.to_vec(alloc) {
            Ok(out) => Ok(Circuit {
                names: self.names,
                inputs: self.inputs,
                gates: self.gates,
                out,
            }),
            Err(_) => Err((self, CircuitEnd::Memory)),
        }
    }
}
