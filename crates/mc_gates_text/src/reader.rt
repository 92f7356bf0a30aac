//! What a reader keeps of a gate list.

ghost use Rattle.std.specs.Prelude.{◌≤◌, length};

use mc_gates::Op;
use mc_names::Names;

/// What is kept of the lines of a gate list: of the current one the operands.
#[derive(Drop)]
pub(crate) struct Reader {
    pub(crate) names: Names,
    pub(crate) inputs: u16,
    pub(crate) ops: Vec<Op>,
    pub(crate) outputs: Vec<u16>,
    pub(crate) operands: Vec<u16>,
    ghost few: { inputs ≤ length names },
}
