//! The section of a gate list.

ghost use Rattle.std.specs.Prelude.{[]};
ghost use Rattle.mc_gates_text.specs.Kept.{IsKept, state_of};

use crate::reader::Reader;
use crate::steps::{end_op, take};
use mc_names::Names;
use mc_text::{Point, Section, Stop};
use std::alloc::Global;

impl Reader {
    /// Before the first line.
    pub(crate) fn new(alloc: Global) -> Reader
        ensures { IsKept (state_of result) [] [] }
    {
        Reader {
            names: Names::new(alloc),
            inputs: 0,
            ops: Vec::new(alloc),
            outputs: Vec::new(alloc),
            operands: Vec::new(alloc),
        }
    }
}

impl Section for Reader {
    ghost use Rattle.mc_gates_text.specs.Judge.{gates_rules};
    ghost use Rattle.mc_gates_text.specs.Kept.{IsKept, state_of};

    ghost rules = { λ _. gates_rules };

    ghost means = { λ k. IsKept (state_of k) };

    fn word(&mut self, point: Point, word: &[u8]) -> Result<(), Stop> {
        match take(self, point, word) {
            Ok(()) => Ok(()),
            Err(stop) => Err(stop),
        }
    }

    fn end_line(&mut self, point: Point) -> Result<(), Stop> {
        match end_op(self, point) {
            Ok(()) => Ok(()),
            Err(stop) => Err(stop),
        }
    }
}
