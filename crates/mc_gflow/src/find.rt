//! The finder.

ghost use Rattle.std.specs.Prelude.{◌≡◌, ◌≢◌, ◌<◌, ◌≤◌, ◌+◌, ◌*◌};
ghost use Rattle.std.specs.Prelude.{ℕ, [], true, false, IfOk, length};
ghost use Rattle.std.specs.Prelude.{slice_index, cond};
ghost use Rattle.mc_model.specs.Graph.{size, is_output};
ghost use Rattle.mc_model.specs.Choice.{IsChosenFlow};
ghost use Rattle.mc_elim.specs.Tables.{entry};
ghost use Rattle.mc_gflow.specs.Layers.{IsSearching, IsSearched, HasSquare, AllSingle};
ghost use Rattle.mc_gflow.specs.Layers.{IsWithoutFlow, left_over};
ghost use Rattle.mc_gflow.specs.Answers.{IsChosen, HasSingleSets};

use crate::insert::insert_layer;
use crate::rows::{flow_of, refuter_of};
use crate::take::{NONE, refute_all, take_layer};
use mc_bits::{BitRow, Rows, Steps};
use mc_elim::Basis;
use mc_graph::{GFlow, OpenGraph, Refuter};
use mc_model::Memory;
use std::alloc::Global;
use std::sync::ledger::Ledger;

/// What a graph has: a flow, or vertices that no flow corrects, with the sets that show it.
#[derive(Drop)]
pub enum Found {
    Flow(GFlow),
    Refuted(Refuter),
}

fn start_layer(is_output: bool) -> u16
    ensures { result ≡ cond is_output 0 NONE }
{
    if is_output { 0 } else { NONE }
}

/// Gives the outputs the layer 0.
fn set_outputs<const H: usize>(graph: &OpenGraph<H>, layers: &mut [u16])
    requires { length layers.old ≡ size graph.now }
    ensures { (v : ℕ) → v < size graph.now →
        slice_index layers.new v ≡ cond (is_output graph.now v) 0 NONE }
{
    'vertices: for v in 0..graph.len() {
        layers[v as usize] = start_layer(graph.is_output(v));
    }
}

/// Takes vertices layer by layer, until no more can be taken; gives the last layer that has any.
fn search<const H: usize, L: Ledger>(
    graph: &OpenGraph<H>,
    layers: &mut [u16],
    sets: &mut Rows,
    order: &mut [u16],
    columns: &mut BitRow,
    basis: &mut Basis,
    steps: &mut Steps<L>,
) -> u16
    requires { IsSearching graph.now NONE 0 layers.old sets.old order.old columns.old basis.old
        steps.old steps.old }
    ensures { IsSearched graph.now NONE result layers.new sets.new order.new basis.new steps.old
        steps.new }
{
    let mut layer = 0;
    'rounds: loop {
        insert_layer(graph, layer, layers, basis, order, steps);
        if !take_layer(graph, layer + 1, layers, basis, order, sets, columns) {
            return layer;
        }
        layer += 1;
    }
}

/// Whether some vertex was not taken.
fn has_untaken(layers: &[u16]) -> bool
    ensures yes { result ≡ true →
        (v : ℕ) × (v < length layers.now) × (slice_index layers.now v ≡ NONE) }
    ensures no { result ≡ false → (v : ℕ) → v < length layers.now →
        slice_index layers.now v ≢ NONE }
{
    'vertices: for v in 0..layers.len() {
        if layers[v] == NONE {
            return true;
        }
    }
    false
}

/// Searches from the outputs, and writes the refuters of what is left; tells whether nothing is.
fn settle<const H: usize, L: Ledger>(
    graph: &OpenGraph<H>,
    layers: &mut [u16],
    sets: &mut Rows,
    order: &mut [u16],
    basis: &mut Basis,
    steps: &mut Steps<L>,
) -> bool
    requires lengths { (length layers.old ≡ size graph.now)
        × (length order.old ≡ size graph.now) }
    requires square { HasSquare (size graph.now) sets.old }
    requires sizes { (basis.old.rows ≡ size graph.now) × (basis.old.room ≡ size graph.now) }
    requires empty { (basis.old.columns ≡ []) × (basis.old.has_added ≡ false) }
    ensures yes { result ≡ true →
        IsChosenFlow graph.now (entry sets.new) (slice_index layers.new) }
    ensures no { result ≡ false → IsWithoutFlow graph.now (left_over (slice_index layers.new) NONE)
        (entry sets.new) }
    ensures rise { steps.old ≤ steps.new }
    ensures most { steps.new ≤ steps.old + 2 * (size graph.now * size graph.now) }
    ensures some { steps.new ≡ steps.old → result ≡ true → AllSingle graph.now (entry sets.new) }
    ensures square { HasSquare (size graph.now) sets.new }
{
    set_outputs(graph, layers);
    let mut columns = BitRow::new(graph.len());
    search(graph, layers, sets, order, &mut columns, basis, steps);
    if has_untaken(layers) {
        refute_all(graph, layers, basis, sets);
        return false;
    }
    true
}

fn answer<const H: usize, L: Ledger>(
    alloc: Global,
    graph: &OpenGraph<H>,
    layers: &mut [u16],
    sets: &mut Rows,
    order: &mut [u16],
    basis: &mut Basis,
    steps: &mut Steps<L>,
) -> Result<Found, Memory>
    requires lengths { (length layers.old ≡ size graph.now)
        × (length order.old ≡ size graph.now) }
    requires square { HasSquare (size graph.now) sets.old }
    requires sizes { (basis.old.rows ≡ size graph.now) × (basis.old.room ≡ size graph.now) }
    requires empty { (basis.old.columns ≡ []) × (basis.old.has_added ≡ false) }
    ensures chosen { IfOk result (IsChosen graph.now) }
    ensures rise { steps.old ≤ steps.new }
    ensures most { steps.new ≤ steps.old + 2 * (size graph.now * size graph.now) }
    ensures some { IfOk result (λ found. steps.new ≡ steps.old → HasSingleSets found) }
{
    let _vertices = graph.len();
    if settle(graph, layers, sets, order, basis, steps) {
        match flow_of(alloc, layers, sets) {
            Ok(flow) => Ok(Found::Flow(flow)),
            Err(_) => Err(Memory),
        }
    } else {
        match refuter_of(alloc, layers, sets) {
            Ok(refuter) => Ok(Found::Refuted(refuter)),
            Err(_) => Err(Memory),
        }
    }
}

/// The chosen flow, its rows by rising layer and within a layer by rising number, or exactly where
/// the graph has no flow the chosen refuter, its rows by rising number (Browne, Kashefi, Mhalla and
/// Perdrix 2007; Mhalla and Perdrix 2008).
///
/// The additions of rows of bits are counted, at most twice the square of the number of vertices;
/// where nothing was counted each set has one member. They are counted after want of memory too.
pub fn find_flow<const H: usize, L: Ledger>(
    alloc: Global,
    graph: &OpenGraph<H>,
    steps: &mut Steps<L>,
) -> Result<Found, Memory>
    ensures chosen { IfOk result (IsChosen graph.now) }
    ensures rise { steps.old ≤ steps.new }
    ensures most { steps.new ≤ steps.old + 2 * (size graph.now * size graph.now) }
    // where some set of a flow has two members or more, something was counted
    ensures some { IfOk result (λ found. steps.new ≡ steps.old → HasSingleSets found) }
{
    let n = graph.len();
    let mut basis = Basis::new(alloc, n, n)?;
    let mut sets = Rows::new(alloc, n, n)?;
    let mut order = numbers(alloc, n)?;
    let mut layers = numbers(alloc, n)?;
    answer(
        alloc,
        graph,
        &mut layers,
        &mut sets,
        &mut order,
        &mut basis,
        steps,
    )
}

fn numbers(alloc: Global, n: u16) -> Result<Vec<u16>, Memory>
    ensures { IfOk result (λ numbers. length numbers.items ≡ n) }
{
    match vec![in alloc; 0; n as usize] {
        Ok(numbers) => Ok(numbers),
        Err(_) => Err(Memory),
    }
}
