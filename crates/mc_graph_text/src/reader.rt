//! What a reader keeps of a graph.

ghost use Rattle.std.specs.Prelude.{◌≤◌, IsTrue};
ghost use Rattle.mc_model.specs.Graph.{size};
ghost use Rattle.mc_model.specs.Steps.{is_permitted};

use mc_graph::GraphBuilder;

/// What is kept of the lines of a graph: its inputs and outputs beside the rest, whether fixed corrections may stand, and the
/// number of the first name of the current line.
#[derive(Drop)]
pub(crate) struct Reader<const H: usize> {
    pub(crate) graph: GraphBuilder<H>,
    pub(crate) inputs: u16,
    pub(crate) outputs: Vec<u16>,
    pub(crate) first: u16,
    pub(crate) fixes: bool,
    ghost few: { inputs ≤ size graph },
    ghost permitted: { IsTrue (is_permitted H) },
}
