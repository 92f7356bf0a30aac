//! What a reader keeps of a circuit.

ghost use Rattle.std.specs.Prelude.{◌≤◌, IsTrue, length};
ghost use Rattle.mc_model.specs.Steps.{is_permitted};

use crate::gate::Gate;
use mc_names::Names;

/// What is kept of the lines of a circuit: of the current one the first operand and the gate, once they are read.
#[derive(Drop)]
pub(crate) struct Reader<const H: usize> {
    pub(crate) names: Names,
    pub(crate) inputs: u16,
    pub(crate) gates: Vec<Gate<H>>,
    pub(crate) outputs: Vec<u16>,
    pub(crate) operand: u16,
    pub(crate) gate: Option<Gate<H>>,
    ghost few: { inputs ≤ length names },
    ghost permitted: { IsTrue (is_permitted H) },
}
