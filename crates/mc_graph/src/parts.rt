//! The commands that a graph gives, and the patterns that they make.

ghost use Rattle.std.specs.Prelude.{◌≡◌, ◌-◌, ◌<◌, [], ◌∷◌, ◌++◌, cond, false, IfOk, OnOk, map};
ghost use Rattle.std.specs.Prelude.{unwrap_or};
ghost use Rattle.mc_model.specs.Translation.{preparations};
ghost use Rattle.mc_model.specs.Graph.{size, is_output, base_angle, entanglings, graph_state};
ghost use Rattle.mc_model.specs.Graph.{bare_measurement, corrections_at, fixed_corrections};
ghost use Rattle.mc_pattern.specs.Commands.{plain_command};
ghost use Rattle.mc_pattern.specs.Patterns.{IsPattern};
ghost use Rattle.mc_graph.specs.Neighbours.{edges_up};
ghost use Rattle.mc_graph.specs.Patterns.{pattern_with};

use crate::graph::OpenGraph;
use mc_angle::Angle;
use mc_model::Memory;
use mc_pattern::{Command, Pattern, Signal};
use std::alloc::Global;

/// Appends a command. One that finds no memory is dropped.
fn push<const H: usize>(commands: &mut Vec<Command<H>>, command: Command<H>) -> Result<(), Memory>
    ensures { OnOk result (map plain_command commands.new.items ≡
        map plain_command commands.old.items ++ plain_command command.entry ∷ []) }
{
    match commands.push(command) {
        Ok(()) => Ok(()),
        Err(_) => Err(Memory),
    }
}

/// Appends a command if told to, and drops it else.
fn push_if<const H: usize>(
    commands: &mut Vec<Command<H>>,
    told: bool,
    command: Command<H>,
) -> Result<(), Memory>
    ensures { OnOk result (map plain_command commands.new.items ≡
        map plain_command commands.old.items ++ cond told (plain_command command.entry ∷ []) []) }
{
    if told {
        push(commands, command)
    } else {
        Ok(())
    }
}

/// Appends the preparations of the vertices that are no inputs.
fn push_preparations<const H: usize>(
    g: &OpenGraph<H>,
    commands: &mut Vec<Command<H>>,
) -> Result<(), Memory>
    ensures { OnOk result (map plain_command commands.new.items ≡
        map plain_command commands.old.items
        ++ preparations g.now.inputs (size g.now - g.now.inputs)) }
{
    'vertices: for v in g.inputs()..g.len() {
        push(commands, Command::Prep(v))?;
    }
    Ok(())
}

/// Appends the edges of a vertex to those of higher number.
fn push_edges_up<const H: usize>(
    g: &OpenGraph<H>,
    v: u16,
    commands: &mut Vec<Command<H>>,
) -> Result<(), Memory>
    requires { v < size g.now }
    ensures { OnOk result (map plain_command commands.new.items ≡
        map plain_command commands.old.items ++ entanglings (edges_up g.now v)) }
{
    'neighbours: for w in g.neighbours(v) {
        push_if(commands, v < *w, Command::Ent(v, *w))?;
    }
    Ok(())
}

/// Appends all edges, in rising order.
fn push_edges<const H: usize>(
    g: &OpenGraph<H>,
    commands: &mut Vec<Command<H>>,
) -> Result<(), Memory>
    ensures { OnOk result (map plain_command commands.new.items ≡
        map plain_command commands.old.items ++ entanglings g.now.edges) }
{
    // the proof needs that the edges are those of each vertex to the ones of higher number
    let _count = g.edge_count();
    'vertices: for v in 0..g.len() {
        push_edges_up(g, v, commands)?;
    }
    Ok(())
}

/// The commands that make the state of a graph: the preparations of the vertices that are no inputs, and the edges.
pub fn state_of<const H: usize>(alloc: Global, g: &OpenGraph<H>) -> Result<Vec<Command<H>>, Memory>
    ensures { IfOk result (λ commands. map plain_command commands.items ≡ graph_state g.now) }
{
    let mut commands = Vec::new(alloc);
    push_preparations(g, &mut commands)?;
    push_edges(g, &mut commands)?;
    Ok(commands)
}

fn angle_at<const H: usize>(g: &OpenGraph<H>, v: u16) -> Angle<H>
    requires vertex { v < size g.now }
    requires inner { is_output g.now v ≡ false }
    ensures { result ≡ unwrap_or (base_angle g.now v) 0 }
{
    match g.angle_of(v) {
        Some(angle) => angle,
        None => unreachable!(),
    }
}

/// Appends the measurement of a vertex at its base angle, without signals. The vertex is no output.
pub fn push_measurement<const H: usize>(
    alloc: Global,
    g: &OpenGraph<H>,
    v: u16,
    commands: &mut Vec<Command<H>>,
) -> Result<(), Memory>
    requires vertex { v < size g.now }
    requires inner { is_output g.now v ≡ false }
    ensures { OnOk result (map plain_command commands.new.items ≡
        map plain_command commands.old.items ++ bare_measurement g.now v ∷ []) }
{
    let measurement = Command::Meas {
        q: v,
        angle: angle_at(g, v),
        s: Signal::empty(alloc),
        t: Signal::empty(alloc),
    };
    push(commands, measurement)
}

/// Appends the fixed corrections of a vertex.
fn push_corrections_at<const H: usize>(
    alloc: Global,
    g: &OpenGraph<H>,
    v: u16,
    commands: &mut Vec<Command<H>>,
) -> Result<(), Memory>
    requires { v < size g.now }
    ensures { OnOk result (map plain_command commands.new.items ≡
        map plain_command commands.old.items ++ corrections_at g.now v) }
{
    let fixed = g.fixed(v);
    let x = Command::FixX {
        q: v,
        s: Signal::one(alloc),
    };
    push_if(commands, fixed.x, x)?;
    let z = Command::FixZ {
        q: v,
        s: Signal::one(alloc),
    };
    push_if(commands, fixed.z, z)
}

/// Appends the fixed corrections of all vertices, by rising number.
fn push_corrections<const H: usize>(
    alloc: Global,
    g: &OpenGraph<H>,
    commands: &mut Vec<Command<H>>,
) -> Result<(), Memory>
    ensures { OnOk result (map plain_command commands.new.items ≡
        map plain_command commands.old.items ++ fixed_corrections g.now) }
{
    'vertices: for v in 0..g.len() {
        push_corrections_at(alloc, g, v, commands)?;
    }
    Ok(())
}

/// The pattern of commands with the fixed corrections of a graph behind them, where that is one.
pub fn pattern_of<const H: usize>(
    alloc: Global,
    g: &OpenGraph<H>,
    mut commands: Vec<Command<H>>,
) -> Result<Pattern<H>, Memory>
    requires { IsPattern H (pattern_with g.now (map plain_command commands.items)) }
    ensures { IfOk result (λ pattern. pattern ≡
        pattern_with g.now (map plain_command commands.entry.items)) }
{
    push_corrections(alloc, g, &mut commands)?;
    let names = g.names().copy()?;
    match g.outputs().to_vec(alloc) {
        Ok(outputs) => Ok(Pattern::of(names, g.inputs(), commands, outputs)),
        Err(_) => Err(Memory),
    }
}
