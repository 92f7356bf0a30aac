//! Patterns in standard form.

ghost use Rattle.std.specs.Prelude.{◌≡◌, map};
ghost use Rattle.mc_model.specs.Pattern.{Prep};
ghost use Rattle.mc_model.specs.StandardForm.{preparations_of};
ghost use Rattle.mc_rules.specs.Parts.{entanglings_of, measurements_of, corrections_of};
ghost use Rattle.mc_standard.specs.Plain.{plain_edge, plain_measure, plain_fix};

use mc_angle::Angle;
use mc_model::Memory;
use mc_names::Names;
use mc_pattern::Pattern;
use mc_signal::Signal;
use std::alloc::Global;
use std::marker::Model;

/// A measurement of a qubit at an angle whose sign and half turn the signals `s` and `t` decide.
#[derive(Drop)]
pub struct Measure<const H: usize> {
    pub q: u16,
    pub angle: Angle<H>,
    pub s: Signal,
    pub t: Signal,
}

/// A correction of a qubit, by `X` or by `Z`, where a signal is 1.
#[derive(Drop)]
pub enum Fix {
    X { q: u16, s: Signal },
    Z { q: u16, s: Signal },
}

/// A valid pattern that is its own standard form (Danos, Kashefi and Panangaden 2007): preparations, then entanglings, each of
/// two qubits once, then measurements, then corrections, at most one by `X` and one by `Z` a qubit. There are at most 262,144
/// commands.
#[derive(Drop)]
pub struct Standard<const H: usize> {
    pub(crate) names: Names,
    pub(crate) inputs: u16,
    pub(crate) outs: Vec<u16>,
    pub(crate) preps: Vec<u16>,
    pub(crate) edges: Vec<(u16, u16)>,
    pub(crate) measures: Vec<Measure<H>>,
    pub(crate) fixes: Vec<Fix>,
}

impl<const H: usize> Model for Standard<H> {
    ghost use Rattle.mc_model.specs.Pattern.{Pattern as Plain};
    ghost use Rattle.mc_pattern.specs.Patterns.{begun, with_outputs};
    ghost use Rattle.mc_standard.specs.StandardForms.{IsStandardForm};
    ghost use Rattle.mc_standard.specs.Plain.{in_parts};

    ghost Value = { Plain };

    ghost view = { λ p. with_outputs (begun p.names p.inputs
        (in_parts p.preps.items p.edges.items p.measures.items p.fixes.items)) p.outs.items };

    ghost invariant = { λ p. IsStandardForm H (with_outputs (begun p.names p.inputs
        (in_parts p.preps.items p.edges.items p.measures.items p.fixes.items)) p.outs.items) };
}

impl<const H: usize> Standard<H> {
    ghost use Rattle.mc_rules.specs.Parts.{IsInParts};
    ghost use Rattle.mc_standard.specs.StandardForms.{IsStandardForm};

    /// The names of the qubits.
    pub fn names(&self) -> &Names
        ensures names { result.now ≡ self.now.names }
        ensures standard { IsStandardForm H self.now }
        ensures parts { IsInParts self.now.commands }
    {
        &self.names
    }

    /// How many of the qubits are inputs.
    pub fn inputs(&self) -> u16
        ensures { result ≡ self.now.inputs }
    {
        self.inputs
    }

    /// The qubits that are measured nowhere, in the order of output.
    pub fn outputs(&self) -> &[u16]
        ensures { result.now ≡ self.now.outputs }
    {
        self.outs.as_slice()
    }

    /// The qubits that are prepared, in rising order.
    pub fn preps(&self) -> &[u16]
        ensures { map Prep result.now ≡ preparations_of self.now.commands }
    {
        self.preps.as_slice()
    }

    /// The pairs of entangled qubits, the lower number first, in rising order.
    pub fn edges(&self) -> &[(u16, u16)]
        ensures { map plain_edge result.now ≡ entanglings_of self.now.commands }
    {
        self.edges.as_slice()
    }

    /// The measurements in order of execution.
    pub fn measures(&self) -> &[Measure<H>]
        ensures { map plain_measure result.now ≡ measurements_of self.now.commands }
    {
        self.measures.as_slice()
    }

    /// The corrections by rising qubit, `X` before `Z`.
    pub fn fixes(&self) -> &[Fix]
        ensures { map plain_fix result.now ≡ corrections_of self.now.commands }
    {
        self.fixes.as_slice()
    }
}
