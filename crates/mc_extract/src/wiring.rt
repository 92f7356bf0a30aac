//! The wires of the vertices.

ghost use Rattle.std.specs.Prelude.{◌≡◌, ◌<◌, ◌≤◌, ◌++◌, ◌∷◌, [], cond, IfOk, OnOk, map, length};
ghost use Rattle.std.specs.Prelude.{None, is_none, slice_index_or};
ghost use Rattle.mc_model.specs.Numbers.{numbers_from};
ghost use Rattle.mc_model.specs.Graph.{size};
ghost use Rattle.mc_model.specs.Made.{last_before, is_first, wire_of};
ghost use Rattle.mc_extract.specs.Chains.{number_at, is_before, back_in, chain_in, firsts_in};
ghost use Rattle.mc_extract.specs.Chains.{place};

use mc_graph::OpenGraph;
use mc_model::Memory;
use std::alloc::Global;

/// Appends a number if told to.
fn push_if(numbers: &mut Vec<u16>, told: bool, v: u16) -> Result<(), Memory>
    ensures { OnOk result (numbers.new.items ≡ numbers.old.items ++ cond told (v ∷ []) []) }
{
    if told {
        match numbers.push(v) {
            Ok(()) => Ok(()),
            Err(_) => Err(Memory),
        }
    } else {
        Ok(())
    }
}

fn precedes<const H: usize>(g: &OpenGraph<H>, next: &[u16], u: u16, v: u16) -> bool
    requires vertex { u < size g.now }
    requires all { length next.now ≡ size g.now }
    ensures { result ≡ is_before g.now (number_at next.now) v u }
{
    !g.is_output(u) && next[u as usize] == v
}

/// The vertex whose next is this one.
fn before_one<const H: usize>(g: &OpenGraph<H>, next: &[u16], v: u16) -> Option<u16>
    requires { length next.now ≡ size g.now }
    ensures { result ≡ last_before g.now (number_at next.now) v }
{
    'vertices: for u in 0..g.len() {
        if precedes(g, next, u, v) {
            return Some(u);
        }
    }
    None
}

/// The vertex before each one.
pub(crate) fn all_before<const H: usize>(
    alloc: Global,
    g: &OpenGraph<H>,
    next: &[u16],
) -> Result<Vec<Option<u16>>, Memory>
    requires { length next.now ≡ size g.now }
    ensures { IfOk result (λ before. before.items ≡ map
        (last_before g.now (number_at next.now)) (numbers_from 0 (size g.now))) }
{
    let mut before = Vec::new(alloc);
    'vertices: for v in 0..g.len() {
        let one = before_one(g, next, v);
        let Ok(()) = before.push(one) else {
            return Err(Memory);
        };
    }
    Ok(before)
}

fn back(before: &[Option<u16>], v: u16) -> u16
    ensures { result ≡ back_in before.now v }
{
    if (v as usize) < before.len() {
        before[v as usize].unwrap_or(v)
    } else {
        v
    }
}

/// The vertex so many steps back, or the first of the chain.
fn chain_back(before: &[Option<u16>], count: u16, v: u16) -> u16
    ensures { result ≡ chain_in before.now count v }
{
    let mut at = v;
    'steps: for _step in 0..count {
        at = back(before, at);
    }
    at
}

/// The vertices that have none before them.
fn firsts_of(alloc: Global, before: &[Option<u16>], count: u16) -> Result<Vec<u16>, Memory>
    requires { count ≡ length before.now }
    ensures { IfOk result (λ firsts. firsts.items ≡ firsts_in before.now) }
{
    let mut firsts = Vec::new(alloc);
    'vertices: for v in 0..count {
        push_if(&mut firsts, before[v as usize].is_none(), v)?;
    }
    Ok(firsts)
}

/// The place of a number in a list, or 0.
fn place_of(numbers: &[u16], count: u16, a: u16) -> u16
    requires { count ≡ length numbers.now }
    ensures { result ≡ place numbers.now a }
{
    'places: for i in 0..count {
        if numbers[i as usize] == a {
            return i;
        }
    }
    0
}

fn length_of(numbers: &[u16], most: u16) -> u16
    requires { length numbers.now ≤ most }
    ensures { result ≡ length numbers.now }
{
    numbers.len() as u16
}

/// Whether each vertex is the first of its chain.
pub(crate) fn are_first<const H: usize>(
    alloc: Global,
    g: &OpenGraph<H>,
    next: &[u16],
    before: &[Option<u16>],
) -> Result<Vec<bool>, Memory>
    requires { before.now ≡ map
        (last_before g.now (number_at next.now)) (numbers_from 0 (size g.now)) }
    ensures { IfOk result (λ first. first.items ≡ map
        (is_first g.now (number_at next.now)) (numbers_from 0 (size g.now))) }
{
    let mut first = Vec::new(alloc);
    'vertices: for v in 0..g.len() {
        let Ok(()) = first.push(has_none(before, v)) else {
            return Err(Memory);
        };
    }
    Ok(first)
}

fn has_none(before: &[Option<u16>], v: u16) -> bool
    requires { v < length before.now }
    ensures { result ≡ is_none (slice_index_or before.now v None) }
{
    before[v as usize].is_none()
}

/// The wire of each vertex.
pub(crate) fn wires_of<const H: usize>(
    alloc: Global,
    g: &OpenGraph<H>,
    next: &[u16],
    before: &[Option<u16>],
) -> Result<Vec<u16>, Memory>
    requires { before.now ≡ map
        (last_before g.now (number_at next.now)) (numbers_from 0 (size g.now)) }
    ensures { IfOk result (λ wires. wires.items ≡ map (wire_of g.now (number_at next.now))
        (numbers_from 0 (size g.now))) }
{
    let count = g.len();
    let firsts = firsts_of(alloc, before, count)?;
    let many = length_of(&firsts, count);
    let mut wires = Vec::new(alloc);
    'vertices: for v in 0..count {
        let wire = place_of(&firsts, many, chain_back(before, count, v));
        let Ok(()) = wires.push(wire) else {
            return Err(Memory);
        };
    }
    Ok(wires)
}
