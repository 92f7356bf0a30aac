//! The least sets that keep vertices above layers.

ghost use Rattle.std.specs.Prelude.{◌≡◌, ◌<◌, ◌≤◌, ◌+◌, ◌&&◌, IfOk, OnOk, All, not, nat_lt, ℕ};
ghost use Rattle.mc_model.specs.Numbers.{is_member};
ghost use Rattle.mc_model.specs.Signals.{IsRising};
ghost use Rattle.mc_model.specs.Graph.{size, is_output};
ghost use Rattle.mc_model.specs.Depth.{KeepsAbove};
ghost use Rattle.mc_model.specs.Choice.{IsLeastSet, IsLaterNumber};
ghost use Rattle.mc_graph.specs.Flows.{layer_in};
ghost use Rattle.mc_least.specs.Chosen.{IsEarliest};
ghost use Rattle.mc_least.specs.Columns.{IsBasisFor};
ghost use Rattle.mc_least.specs.Rows.{HoldsSets, IsSetDue};

use crate::columns::basis_for;
use mc_bits::BitRow;
use mc_cert::Bound;
use mc_elim::{Basis, members_of};
use mc_graph::{GFlow, OpenGraph};
use mc_model::Memory;
use mc_signal::QSet;
use std::alloc::Global;

/// Whether a vertex is no output and of a layer above `k`.
fn is_above<const H: usize>(g: &OpenGraph<H>, f: &GFlow, k: u32, u: u16) -> bool
    requires { u < size g.now }
    ensures { result ≡ (not (is_output g.now u) && nat_lt k (layer_in f.now.rows u)) }
{
    !g.is_output(u) && k < f.layer_of(u)
}

/// The least set that keeps a vertex above the layer `k`.
fn least_set<const H: usize>(
    alloc: Global,
    g: &OpenGraph<H>,
    f: &GFlow,
    k: u32,
    u: u16,
    basis: &Basis,
) -> Result<QSet, Memory>
    requires flow { IsEarliest g.now f.now }
    requires due { IsSetDue g.now (layer_in f.now.rows) k u }
    requires basis { IsBasisFor g.now (layer_in f.now.rows) k basis.now }
    ensures least { IfOk result (λ set. IsLeastSet IsLaterNumber (size g.now)
        (KeepsAbove g.now (layer_in f.now.rows) k u) (is_member set)) }
    ensures members { IfOk result (λ set. All (λ j. j < size g.now) set) }
    ensures rising { IfOk result (λ set. IsRising set) }
{
    let mut rows = BitRow::new(g.len());
    if !basis.refuter(u, &mut rows) {
        unreachable!();
    }
    let set = members_of(alloc, &rows)?;
    // the proof needs that the set is in order
    let _members = set.len();
    Ok(set)
}

/// Adds the set of a vertex, if it is above the layer `k`.
fn add_next<const H: usize>(
    alloc: Global,
    g: &OpenGraph<H>,
    f: &GFlow,
    k: u32,
    u: u16,
    basis: &Basis,
    bound: &mut Bound,
) -> Result<(), Memory>
    requires flow { IsEarliest g.now f.now }
    requires place { (1 ≤ k) × (u < size g.now) }
    requires basis { IsBasisFor g.now (layer_in f.now.rows) k basis.now }
    requires rows { HoldsSets g.now (layer_in f.now.rows) k u bound.old.rows }
    ensures rows { OnOk result (HoldsSets g.now (layer_in f.now.rows) k (u + 1) bound.new.rows) }
    ensures same { OnOk result
        ((bound.new.depth ≡ bound.old.depth) × (bound.new.layers ≡ bound.old.layers)) }
{
    if !is_above(g, f, k, u) {
        return Ok(());
    }
    let set = least_set(alloc, g, f, k, u, basis)?;
    match bound.push(k, u, set) {
        Ok(()) => Ok(()),
        // no vertex is met twice for a layer
        Err(_) => Err(Memory),
    }
}

/// Adds the sets of all vertices above the layer `k`, by rising number.
fn add_all<const H: usize>(
    alloc: Global,
    g: &OpenGraph<H>,
    f: &GFlow,
    k: u32,
    bound: &mut Bound,
) -> Result<(), Memory>
    requires flow { IsEarliest g.now f.now }
    requires positive { 1 ≤ k }
    requires rows { HoldsSets g.now (layer_in f.now.rows) k 0 bound.old.rows }
    ensures rows { OnOk result (HoldsSets g.now (layer_in f.now.rows) (k + 1) 0 bound.new.rows) }
    ensures same { OnOk result
        ((bound.new.depth ≡ bound.old.depth) × (bound.new.layers ≡ bound.old.layers)) }
{
    let basis = basis_for(alloc, g, f, k)?;
    'vertices: for u in 0..g.len() {
        add_next(alloc, g, f, k, u, &basis, bound)?;
    }
    Ok(())
}

/// Adds the sets for all layers below the depth, by rising layer.
pub(crate) fn add_sets<const H: usize>(
    alloc: Global,
    g: &OpenGraph<H>,
    f: &GFlow,
    bound: &mut Bound,
) -> Result<(), Memory>
    requires flow { IsEarliest g.now f.now }
    requires rows { HoldsSets g.now (layer_in f.now.rows) 1 0 bound.old.rows }
    ensures rows { OnOk result
        ((k : ℕ) × (f.now.depth ≤ k) × HoldsSets g.now (layer_in f.now.rows) k 0 bound.new.rows) }
    ensures same { OnOk result
        ((bound.new.depth ≡ bound.old.depth) × (bound.new.layers ≡ bound.old.layers)) }
{
    'layers: for k in 1..f.depth() {
        add_all(alloc, g, f, k, bound)?;
    }
    Ok(())
}
