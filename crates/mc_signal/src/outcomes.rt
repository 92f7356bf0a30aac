//! Outcomes of measurements.

ghost use Rattle.std.specs.Prelude.{◌≡◌, ◌<◌, IfOk, false, length, replicate, slice_set};
ghost use Rattle.mc_model.specs.Bits.{replaced, bits_of};

use mc_model::Memory;
use std::alloc::Global;
use std::marker::Model;

/// A bit for each qubit: the outcome of its measurement.
#[derive(Drop)]
pub struct Outcomes {
    bits: Vec<bool>,
}

impl Model for Outcomes {
    ghost use Rattle.std.specs.Prelude.{List, Bool};

    ghost Value = { List Bool };

    ghost view = { λ o. o.bits.items };
}

impl Outcomes {
    /// The outcomes of `n` qubits, all 0.
    pub fn new(alloc: Global, n: u16) -> Result<Outcomes, Memory>
        ensures { IfOk result (λ outcomes. outcomes ≡ replicate n false) }
    {
        match vec![in alloc; false; n as usize] {
            Ok(bits) => Ok(Outcomes { bits }),
            Err(_) => Err(Memory),
        }
    }

    /// The outcome of a qubit.
    pub fn get(&self, q: u16) -> bool
        requires { q < length self.now }
        ensures { result ≡ bits_of self.now q }
    {
        self.bits[q as usize]
    }

    /// Sets the outcome of a qubit.
    pub fn set(&mut self, q: u16, outcome: bool)
        requires { q < length self.old }
        ensures list { self.new ≡ slice_set self.old q outcome }
        ensures bits { bits_of self.new ≡ replaced (bits_of self.old) q outcome }
    {
        self.bits[q as usize] = outcome;
    }
}
