//! Tables of amplitudes.

ghost use Rattle.std.specs.Prelude.{◌≡◌, ◌+◌, ◌<◌, ◌≤◌, ◌^◌};
ghost use Rattle.mc_run.specs.Tables.{entry_at};

use crate::place::two_to;
use mc_cyclo::Cyclo;
use std::marker::Model;

/// The amplitudes of a circuit or of one branch of a pattern, from at most 16 inputs and outputs
/// together.
#[derive(Drop)]
pub struct Table<const H: usize> {
    pub(crate) outputs: u16,
    pub(crate) inputs: u16,
    pub(crate) halves: u32,
    pub(crate) entries: Vec<Cyclo<H>>,
}

impl<const H: usize> Model for Table<H> {
    ghost use Rattle.std.specs.Prelude.{IsTrue};
    ghost use Rattle.mc_model.specs.Steps.{is_permitted};
    ghost use Rattle.mc_run.specs.Tables.{TableValue, IsTable};

    ghost Value = { TableValue };

    ghost view = { λ t. record { outputs = t.outputs; inputs = t.inputs; halves = t.halves; entries = t.entries.items } };

    ghost invariant = { λ t. IsTrue (is_permitted H) × IsTable
        (record { outputs = t.outputs; inputs = t.inputs; halves = t.halves; entries = t.entries.items }) };
}

impl<const H: usize> Table<H> {
    /// How many outputs there are.
    pub fn outputs(&self) -> u16
        ensures outputs { result ≡ self.now.outputs }
        ensures small { self.now.outputs + self.now.inputs ≤ 16 }
    {
        self.outputs
    }

    /// How many inputs there are.
    pub fn inputs(&self) -> u16
        ensures inputs { result ≡ self.now.inputs }
        ensures small { self.now.outputs + self.now.inputs ≤ 16 }
    {
        self.inputs
    }

    /// The power of the root of two that every entry is over.
    pub fn halves(&self) -> u32
        ensures { result ≡ self.now.halves }
    {
        self.halves
    }

    /// The entry, before it is scaled, at the bits of `y` on the outputs and of `b` on the inputs;
    /// the first output and the first input have the most significant bit.
    pub fn at(&self, y: usize, b: usize) -> Cyclo<H>
        requires output { y < 2 ^ self.now.outputs }
        requires input { b < 2 ^ self.now.inputs }
        ensures { result ≡ entry_at self.now y b }
    {
        let outputs = self.outputs;
        self.entries[b * two_to(outputs as usize) + y]
    }

    pub(crate) fn entries(&self) -> &[Cyclo<H>]
        ensures { result.now ≡ self.now.entries }
    {
        self.entries.as_slice()
    }
}
