//! Valid patterns.

ghost use Rattle.std.specs.Prelude.{◌≡◌, ◌+◌, length, map};
ghost use Rattle.mc_pattern.specs.Commands.{plain_command};
ghost use Rattle.mc_pattern.specs.Patterns.{measured_count};

use crate::command::Command;
use mc_names::Names;
use std::marker::Model;

/// A pattern over named qubits, of which the first are inputs and the others are prepared by a command. Every command may
/// stand behind those before it, and the outputs are the qubits that are measured nowhere, each listed once. There are at
/// most 262,144 commands.
#[derive(Drop)]
pub struct Pattern<const H: usize> {
    pub(crate) names: Names,
    pub(crate) inputs: u16,
    pub(crate) commands: Vec<Command<H>>,
    pub(crate) outs: Vec<u16>,
}

impl<const H: usize> Model for Pattern<H> {
    ghost use Rattle.std.specs.Prelude.{map};
    ghost use Rattle.mc_model.specs.Pattern.{Pattern as Plain};
    ghost use Rattle.mc_pattern.specs.Commands.{plain_command};
    ghost use Rattle.mc_pattern.specs.Patterns.{IsPattern, begun, with_outputs};

    ghost Value = { Plain };

    ghost view = { λ p.
        with_outputs (begun p.names p.inputs (map plain_command p.commands.items)) p.outs.items };

    ghost invariant = { λ p. IsPattern H
        (with_outputs (begun p.names p.inputs (map plain_command p.commands.items)) p.outs.items) };
}

impl<const H: usize> Pattern<H> {
    ghost use Rattle.mc_pattern.specs.Patterns.{IsPattern};

    /// The names of the qubits.
    pub fn names(&self) -> &Names
        ensures names { result.now ≡ self.now.names }
        ensures valid { IsPattern H self.now }
    {
        &self.names
    }

    /// How many of the qubits are inputs.
    pub fn inputs(&self) -> u16
        ensures { result ≡ self.now.inputs }
    {
        self.inputs
    }

    /// The qubits that are measured nowhere, in the order of output.
    pub fn outputs(&self) -> &[u16]
        ensures { result.now ≡ self.now.outputs }
    {
        self.outs.as_slice()
    }

    /// The commands, in order of execution.
    pub fn commands(&self) -> &[Command<H>]
        ensures { map plain_command result.now ≡ self.now.commands }
    {
        self.commands.as_slice()
    }

    /// How many of the qubits are measured.
    pub fn measured(&self) -> u16
        ensures count { result ≡ measured_count self.now }
        ensures others { result + length self.now.outputs ≡ length self.now.names }
    {
        self.names.len() - self.outs.len() as u16
    }
}
