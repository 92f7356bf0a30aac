ghost use Rattle.std.specs.Prelude.{◌≡◌};

use super::*;
use mc_angle::Angle;
use mc_bits::Steps;
use mc_graph::{GFlow, GraphBuilder, Names, OpenGraph, QSet, Refuter};
use mc_model::Memory;
use std::alloc::Global;
use std::marker::Brand;
use std::sync::ledger::{Blank, Ledger};

/// A builder with so many inputs and other vertices.
fn vertices(alloc: Global, inputs: u16, others: u16) -> Option<GraphBuilder<4>> {
    let mut names = Names::new(alloc);
    for _ in 0..inputs {
        let name = names.fresh();
        let Ok(_) = names.add(name) else {
            return None;
        };
    }
    let Ok(mut builder) = GraphBuilder::new(alloc, names) else {
        return None;
    };
    for _ in 0..others {
        let name = builder.names().fresh();
        let Ok(_) = builder.vertex(name) else {
            return None;
        };
    }
    Some(builder)
}

/// A graph whose vertices but for outputs have the angle 0.
fn graph(
    alloc: Global,
    inputs: u16,
    others: u16,
    edges: &[(u16, u16)],
    outputs: &[u16],
) -> Option<OpenGraph<4>> {
    let Some(mut builder) = vertices(alloc, inputs, others) else {
        return None;
    };
    for (a, b) in edges {
        let Ok(()) = builder.edge(*a, *b) else {
            return None;
        };
    }
    for v in 0..builder.len() {
        if !outputs.contains(&v) {
            let Ok(()) = builder.angle(v, Angle::of(0)) else {
                return None;
            };
        }
    }
    match builder.finish(outputs) {
        Ok(graph) => Some(graph),
        Err(_) => None,
    }
}

fn find<L: Ledger>(alloc: Global, blank: Blank, graph: &OpenGraph<4>) -> Result<Found, Memory>
    requires name { blank.name ≡ L.name }
    requires parts { (blank.parts ≡ L.parts) × (L.parts ≡ 1) }
{
    let mut steps = Steps::<L>::new(blank);
    find_flow(alloc, graph, &mut steps)
}

fn flow(alloc: Global, graph: &OpenGraph<4>) -> Option<GFlow> {
    match find::<Brand>(alloc, Blank::new(1), graph) {
        Ok(Found::Flow(flow)) => Some(flow),
        _ => None,
    }
}

fn refuter(alloc: Global, graph: &OpenGraph<4>) -> Option<Refuter> {
    match find::<Brand>(alloc, Blank::new(1), graph) {
        Ok(Found::Refuted(refuter)) => Some(refuter),
        _ => None,
    }
}

fn has_members(set: &QSet, members: &[u16]) -> bool {
    set.len() == members.len() && members.iter().all(|q| set.has(*q))
}

/// Whether the row at a place is that of a vertex, with its layer and set.
fn flow_row(flow: &GFlow, i: usize, vertex: u16, layer: u32, members: &[u16]) -> bool {
    if i >= flow.len() {
        return false;
    }
    let row = flow.row(i);
    row.vertex == vertex && row.layer == layer && has_members(row.set, members)
}

fn refuter_row(refuter: &Refuter, i: usize, vertex: u16, members: &[u16]) -> bool {
    if i >= refuter.len() {
        return false;
    }
    let (of, set) = refuter.row(i);
    of == vertex && has_members(set, members)
}

/// A chain of four vertices from its input to its output.
fn finds_along_a_chain(alloc: Global) -> bool {
    let Some(graph) = graph(alloc, 1, 3, &[(0, 1), (1, 2), (2, 3)], &[3]) else {
        return false;
    };
    let Some(flow) = flow(alloc, &graph) else {
        return false;
    };
    flow.depth() == 3
        && flow.len() == 3
        && flow_row(&flow, 0, 2, 1, &[3])
        && flow_row(&flow, 1, 1, 2, &[2])
        && flow_row(&flow, 2, 0, 3, &[1, 3])
}

/// Three inputs and three outputs, whose sets have several vertices.
fn finds_larger_sets(alloc: Global) -> bool {
    let edges = [(0, 3), (0, 4), (1, 3), (1, 4), (1, 5), (2, 3), (2, 5)];
    let Some(graph) = graph(alloc, 3, 3, &edges, &[3, 4, 5]) else {
        return false;
    };
    let Some(flow) = flow(alloc, &graph) else {
        return false;
    };
    flow.depth() == 1
        && flow.len() == 3
        && flow_row(&flow, 0, 0, 1, &[3, 5])
        && flow_row(&flow, 1, 1, 1, &[3, 4, 5])
        && flow_row(&flow, 2, 2, 1, &[3, 4])
}

/// Three inputs and three outputs in a ring of edges, which has no flow.
fn refutes_a_ring(alloc: Global) -> bool {
    let edges = [(0, 3), (0, 5), (1, 3), (1, 4), (2, 4), (2, 5)];
    let Some(graph) = graph(alloc, 3, 3, &edges, &[3, 4, 5]) else {
        return false;
    };
    let Some(refuter) = refuter(alloc, &graph) else {
        return false;
    };
    refuter.len() == 3
        && refuter_row(&refuter, 0, 0, &[0, 1, 2])
        && refuter_row(&refuter, 1, 1, &[0, 1, 2])
        && refuter_row(&refuter, 2, 2, &[0, 1, 2])
}

/// A measured vertex alone has no flow, and two outputs have one without rows.
fn settles_the_least_graphs(alloc: Global) -> bool {
    let (Some(alone), Some(pair)) = (
        graph(alloc, 0, 1, &[], &[]),
        graph(alloc, 1, 1, &[(0, 1)], &[0, 1]),
    ) else {
        return false;
    };
    let (Some(refuter), Some(flow)) = (refuter(alloc, &alone), flow(alloc, &pair)) else {
        return false;
    };
    refuter.len() == 1 && refuter_row(&refuter, 0, 0, &[0]) && flow.len() == 0 && flow.depth() == 0
}

#[test]
fn finds_and_refutes(rt: HostRuntime) {
    assert!(rt; finds_along_a_chain(rt.alloc()));
    assert!(rt; finds_larger_sets(rt.alloc()));
    assert!(rt; refutes_a_ring(rt.alloc()));
    assert!(rt; settles_the_least_graphs(rt.alloc()));
}
