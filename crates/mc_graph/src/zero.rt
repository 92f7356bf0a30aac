//! The pattern of a graph without a flow.

ghost use Rattle.std.specs.Prelude.{◌≡◌, ◌<◌, [], ◌∷◌, ◌++◌, cond, not, IfOk, OnOk, map};
ghost use Rattle.mc_model.specs.Graph.{size, is_output, bare_measurement};
ghost use Rattle.mc_model.specs.Graph.{zero_pattern as plain_zero_pattern};
ghost use Rattle.mc_pattern.specs.Commands.{plain_command};

use crate::graph::OpenGraph;
use crate::parts::{pattern_of, push_measurement, state_of};
use mc_model::Memory;
use mc_pattern::{Command, Pattern};
use std::alloc::Global;

/// Appends the measurement of a vertex, if it is no output.
fn push_inner<const H: usize>(
    alloc: Global,
    g: &OpenGraph<H>,
    v: u16,
    commands: &mut Vec<Command<H>>,
) -> Result<(), Memory>
    requires { v < size g.now }
    ensures { OnOk result (map plain_command commands.new.items ≡
        map plain_command commands.old.items
        ++ cond (not (is_output g.now v)) (bare_measurement g.now v ∷ []) []) }
{
    if g.is_output(v) {
        Ok(())
    } else {
        push_measurement(alloc, g, v, commands)
    }
}

/// The pattern that prepares the vertices that are no inputs, entangles along all edges, measures all vertices that are no
/// outputs by rising number, and corrects by the fixed corrections alone (Danos and Kashefi 2006).
pub fn zero_pattern<const H: usize>(alloc: Global, g: &OpenGraph<H>) -> Result<Pattern<H>, Memory>
    ensures { IfOk result (λ pattern. pattern ≡ plain_zero_pattern g.now) }
{
    let mut commands = state_of(alloc, g)?;
    'vertices: for v in 0..g.len() {
        push_inner(alloc, g, v, &mut commands)?;
    }
    pattern_of(alloc, g, commands)
}
