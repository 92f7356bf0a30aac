//! The section of a pattern.

ghost use Rattle.std.specs.Prelude.{◌≡◌, [], IsTrue};
ghost use Rattle.mc_model.specs.Steps.{is_permitted};
ghost use Rattle.mc_pattern_text.specs.Judge.{permits_constants};
ghost use Rattle.mc_pattern_text.specs.Kept.{IsKept};

use crate::reader::{Operands, Reader};
use crate::steps::{end_command, take};
use mc_names::Names;
use mc_text::{Point, Section, Stop};
use std::alloc::Global;

impl<const H: usize> Reader<H> {
    /// Before the first line of a section of this version.
    pub(crate) fn new(alloc: Global, version: u8) -> Reader<H>
        requires { IsTrue (is_permitted H) }
        ensures kept { IsKept result [] [] }
        ensures constants { result.constants ≡ permits_constants version }
    {
        Reader {
            alloc,
            constants: version == 2,
            names: Names::new(alloc),
            inputs: 0,
            marks: [false; 256],
            commands: Vec::new(alloc),
            outputs: Vec::new(alloc),
            operands: Operands::new(alloc),
        }
    }
}

impl<const H: usize> Section for Reader<H> {
    ghost use Rattle.mc_pattern_text.specs.Judge.{rules_with};
    ghost use Rattle.mc_pattern_text.specs.Kept.{IsKept};

    ghost rules = { λ reader. rules_with reader.constants };

    ghost means = { IsKept };

    fn word(&mut self, point: Point, word: &[u8]) -> Result<(), Stop> {
        match take(self, point, word) {
            Ok(()) => Ok(()),
            Err(stop) => Err(stop),
        }
    }

    fn end_line(&mut self, point: Point) -> Result<(), Stop> {
        match end_command(self, point) {
            Ok(()) => Ok(()),
            Err(stop) => Err(stop),
        }
    }
}
