//! What a reader keeps of a pattern.

ghost use Rattle.std.specs.Prelude.{◌≤◌, IsTrue, length};
ghost use Rattle.mc_model.specs.Steps.{is_permitted};

use mc_angle::Angle;
use mc_names::Names;
use mc_pattern::Command;
use mc_signal::Signal;
use std::alloc::Global;

/// What is kept of the words of a command, as far as they are read.
#[derive(Drop)]
pub(crate) struct Operands<const H: usize> {
    pub(crate) first: u16,
    pub(crate) second: u16,
    pub(crate) angle: Angle<H>,
    pub(crate) s: Signal,
    pub(crate) t: Signal,
}

/// What is kept of the lines of a pattern: whether constants may stand, a mark for each qubit that was measured, and of
/// the current line the operands of its command.
#[derive(Drop)]
pub(crate) struct Reader<const H: usize> {
    pub(crate) alloc: Global,
    pub(crate) constants: bool,
    pub(crate) names: Names,
    pub(crate) inputs: u16,
    pub(crate) marks: [bool; 256],
    pub(crate) commands: Vec<Command<H>>,
    pub(crate) outputs: Vec<u16>,
    pub(crate) operands: Operands<H>,
    ghost few: { inputs ≤ length names },
    ghost permitted: { IsTrue (is_permitted H) },
}
