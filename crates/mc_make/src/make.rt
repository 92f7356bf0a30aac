//! Making patterns.

ghost use Rattle.std.specs.Prelude.{◌≡◌, ◌<◌, [], ◌∷◌, ◌++◌, List, length};
ghost use Rattle.mc_bits.specs.Rows.{bit_of};
ghost use Rattle.std.specs.Prelude.{Bool, cond, not, false, ◌&&◌};
ghost use Rattle.std.specs.Prelude.{nat_eq, map, IfOk, OnOk};
ghost use Rattle.mc_model.specs.Numbers.{is_member, numbers_where};
ghost use Rattle.mc_model.specs.Bits.{Bits, all_zero};
ghost use Rattle.mc_model.specs.Signals.{signal_of as plain_signal_of};
ghost use Rattle.mc_model.specs.Pattern.{FixX, FixZ};
ghost use Rattle.mc_model.specs.Ring.{ring};
ghost use Rattle.mc_model.specs.Amplitude.{pattern_scale, zero_branch};
ghost use Rattle.mc_model.specs.Alike.{AlikeBranches};
ghost use Rattle.mc_model.specs.Graph.{size, is_output, odd_neighbourhood, zero_pattern};
ghost use Rattle.mc_model.specs.Made.{corrected_measurement, flow_pattern};
ghost use Rattle.mc_pattern.specs.Commands.{plain_command};
ghost use Rattle.mc_graph.specs.Flows.{IsFlowOf, set_in, sets_in, layer_in};

use crate::laws::{
    flow_patterns_are_deterministic, flow_patterns_keep_scale, zero_branch_of_flow_pattern,
};
use mc_bits::BitRow;
use mc_elim::row_of;
use mc_graph::{GFlow, OpenGraph, QSet, order_of, pattern_of, push_measurement, state_of};
use mc_model::Memory;
use mc_odd::odd_neighbours;
use mc_pattern::{Command, Pattern, Signal};
use std::alloc::Global;

/// The signal of one qubit.
fn signal_of(alloc: Global, q: u16) -> Result<Signal, Memory>
    requires { q < 256 }
    ensures { IfOk result (λ signal. signal ≡ plain_signal_of q) }
{
    let mut signal = Signal::empty(alloc);
    signal.toggle(q)?;
    Ok(signal)
}

/// Appends a command. One that finds no memory is dropped.
fn push<const H: usize>(commands: &mut Vec<Command<H>>, command: Command<H>) -> Result<(), Memory>
    ensures { OnOk result (map plain_command commands.new.items ≡
        map plain_command commands.old.items ++ plain_command command.entry ∷ []) }
{
    match commands.push(command) {
        Ok(()) => Ok(()),
        Err(_) => Err(Memory),
    }
}

/// Appends a correction by `X` for the outcome of a vertex, if told to.
fn push_x_if<const H: usize>(
    alloc: Global,
    told: bool,
    v: u16,
    q: u16,
    commands: &mut Vec<Command<H>>,
) -> Result<(), Memory>
    requires { q < 256 }
    ensures { OnOk result (map plain_command commands.new.items ≡
        map plain_command commands.old.items ++ cond told (FixX v (plain_signal_of q) ∷ []) []) }
{
    if told {
        let s = signal_of(alloc, q)?;
        push(commands, Command::FixX { q: v, s })
    } else {
        Ok(())
    }
}

/// Appends a correction by `Z` for the outcome of a vertex, if told to.
fn push_z_if<const H: usize>(
    alloc: Global,
    told: bool,
    v: u16,
    q: u16,
    commands: &mut Vec<Command<H>>,
) -> Result<(), Memory>
    requires { q < 256 }
    ensures { OnOk result (map plain_command commands.new.items ≡
        map plain_command commands.old.items ++ cond told (FixZ v (plain_signal_of q) ∷ []) []) }
{
    if told {
        let s = signal_of(alloc, q)?;
        push(commands, Command::FixZ { q: v, s })
    } else {
        Ok(())
    }
}

/// Whether a vertex is another one, with an odd number of neighbours in the set, which the row tells.
fn needs_z(odd: &BitRow, q: u16, v: u16) -> bool
    requires { v < length odd.now }
    ensures { result ≡ (bit_of odd.now v && not (nat_eq v q)) }
{
    odd.bit(v) && v != q
}

/// Appends the corrections by `X`, on the set.
fn push_xs<const H: usize>(
    alloc: Global,
    g: &OpenGraph<H>,
    set: &QSet,
    q: u16,
    commands: &mut Vec<Command<H>>,
) -> Result<(), Memory>
    requires { q < size g.now }
    ensures { OnOk result (map plain_command commands.new.items ≡
        map plain_command commands.old.items
        ++ map (λ k. FixX k (plain_signal_of q)) (numbers_where (is_member set.now) (size g.now))) }
{
    let members = row_of(set, g.len());
    'vertices: for v in 0..g.len() {
        push_x_if(alloc, members.bit(v), v, q, commands)?;
    }
    Ok(())
}

/// Appends the corrections by `Z`, on the other vertices with an odd number of neighbours in the set.
fn push_zs<const H: usize>(
    alloc: Global,
    g: &OpenGraph<H>,
    set: &QSet,
    q: u16,
    commands: &mut Vec<Command<H>>,
) -> Result<(), Memory>
    requires { q < size g.now }
    ensures { OnOk result (map plain_command commands.new.items ≡
        map plain_command commands.old.items
        ++ map (λ k. FixZ k (plain_signal_of q)) (numbers_where
        (λ k. odd_neighbourhood g.now (is_member set.now) k && not (nat_eq k q)) (size g.now))) }
{
    let odd = odd_neighbours(g, set);
    'vertices: for v in 0..g.len() {
        push_z_if(alloc, needs_z(&odd, q, v), v, q, commands)?;
    }
    Ok(())
}

/// Appends the measurement of a vertex, and the corrections that its outcome calls for where the set corrects it.
fn push_corrected<const H: usize>(
    alloc: Global,
    g: &OpenGraph<H>,
    set: &QSet,
    q: u16,
    commands: &mut Vec<Command<H>>,
) -> Result<(), Memory>
    requires vertex { q < size g.now }
    requires inner { is_output g.now q ≡ false }
    ensures { OnOk result (map plain_command commands.new.items ≡
        map plain_command commands.old.items
        ++ corrected_measurement g.now (is_member set.now) q) }
{
    push_measurement(alloc, g, q, commands)?;
    push_xs(alloc, g, set, q, commands)?;
    push_zs(alloc, g, set, q, commands)
}

/// The set of a vertex, or another one that is empty where the vertex has no row.
fn set_or<'a>(f: &'a GFlow, q: u16, empty: &'a QSet) -> &'a QSet
    requires { empty.now ≡ [] }
    ensures { result.now ≡ set_in f.now.rows q }
{
    match f.find(q) {
        Some(row) => row.set,
        None => empty,
    }
}

/// The pattern that is made from a flow of a graph.
fn build<const H: usize>(alloc: Global, g: &OpenGraph<H>, f: &GFlow) -> Result<Pattern<H>, Memory>
    requires { IsFlowOf g.now f.now }
    ensures { IfOk result (λ pattern. pattern ≡
        flow_pattern g.now (sets_in f.now.rows) (layer_in f.now.rows)) }
{
    // the proof needs that the graph is an open graph
    let _vertices = g.len();
    let empty = QSet::new(alloc);
    let order = order_of(alloc, g, f)?;
    let mut commands = state_of(alloc, g)?;
    'measured: for q in order.as_slice() {
        push_corrected(alloc, g, set_or(f, *q, &empty), *q, &mut commands)?;
    }
    pattern_of(alloc, g, commands)
}

/// The pattern that is made from a flow of a graph (Browne, Kashefi, Mhalla and Perdrix 2007). Whatever the outcomes, its
/// branch map is that of the zero branch of the graph's pattern without a flow, up to one phase, and its own zero branch is
/// that exactly.
pub fn make_pattern<const H: usize>(
    alloc: Global,
    g: &OpenGraph<H>,
    f: &GFlow,
) -> Result<Pattern<H>, Memory>
    requires { IsFlowOf g.now f.now }
    ensures pattern { IfOk result (λ pattern. pattern ≡
        flow_pattern g.now (sets_in f.now.rows) (layer_in f.now.rows)) }
    ensures alike { IfOk result (λ pattern. (o : Bits) →
        AlikeBranches (ring H) pattern o pattern all_zero) }
    ensures zero { IfOk result (λ pattern. (y : List Bool) (b : Bits) →
        zero_branch (ring H) pattern y b ≡ zero_branch (ring H) (zero_pattern g.now) y b) }
    ensures scale { IfOk result (λ pattern.
        pattern_scale pattern ≡ pattern_scale (zero_pattern g.now)) }
{
    // the proof needs that the graph is an open graph
    let _vertices = g.len();
    flow_patterns_are_deterministic();
    zero_branch_of_flow_pattern();
    flow_patterns_keep_scale();
    match build(alloc, g, f) {
        Ok(pattern) => Ok(pattern),
        Err(Memory) => Err(Memory),
    }
}
