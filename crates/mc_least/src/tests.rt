//! The bound of the path from the input 0 over 1 and 2 to the output 3.

ghost use Rattle.std.specs.Prelude.{◌≡◌, IfOk, IfSome};
ghost use Rattle.mc_gflow.specs.Answers.{IsChosen};
ghost use Rattle.mc_graph.specs.Flows.{IsChosenFlowOf};

use super::*;
use mc_bits::Steps;
use mc_cert::Bound;
use mc_gflow::{Found, find_flow};
use mc_graph::{Angle, GFlow, GraphBuilder, Name, Names, OpenGraph};
use mc_model::Memory;
use std::alloc::Global;
use std::marker::Brand;
use std::process::Abort;
use std::sync::ledger::{Blank, Ledger};
use std::test::Fail;

fn name(rt: &impl Abort, word: &str) -> Name {
    Name::read(word.as_bytes()).expect(rt, "a name")
}

fn path(rt: &impl Abort, alloc: Global) -> Result<OpenGraph<4>, Fail> {
    let mut inputs = Names::new(alloc);
    assert_eq!(rt; inputs.add(name(rt, "a")), Ok(0));
    let mut builder: GraphBuilder<4> = GraphBuilder::new(alloc, inputs)?;
    for (word, q) in [("b", 1), ("c", 2), ("d", 3)] {
        assert_eq!(rt; builder.vertex(name(rt, word)), Ok(q));
        assert_eq!(rt; builder.edge(q - 1, q), Ok(()));
        assert_eq!(rt; builder.angle(q - 1, Angle::of(0)), Ok(()));
    }
    Ok(builder.finish(&[3]).ok().expect(rt, "a graph"))
}

fn find<L: Ledger>(alloc: Global, blank: Blank, g: &OpenGraph<4>) -> Result<Found, Memory>
    requires name { blank.name ≡ L.name }
    requires parts { (blank.parts ≡ L.parts) × (L.parts ≡ 1) }
    ensures { IfOk result (IsChosen g.now) }
{
    let mut steps = Steps::<L>::new(blank);
    find_flow(alloc, g, &mut steps)
}

fn flow(alloc: Global, g: &OpenGraph<4>) -> Option<GFlow>
    ensures { IfSome result (IsChosenFlowOf g.now) }
{
    match find::<Brand>(alloc, Blank::new(1), g) {
        Ok(Found::Flow(flow)) => Some(flow),
        _ => None,
    }
}

/// Whether the row at a place is for this layer and vertex, with the vertex alone.
fn has_own(bound: &Bound, i: usize, k: u32, vertex: u16) -> bool {
    if i >= bound.len() {
        return false;
    }
    let (layer, of, set) = bound.row(i);
    layer == k && of == vertex && set.len() == 1 && set.has(vertex)
}

fn has_layer(bound: &Bound, i: usize, vertex: u16, layer: u32) -> bool {
    i < bound.layers() && bound.layer_row(i) == (vertex, layer)
}

#[test]
fn a_path_has_its_depth(rt: HostRuntime) -> Result<(), Fail> {
    let alloc = rt.alloc();
    let g = path(&rt, alloc)?;
    let Some(flow) = flow(alloc, &g) else {
        panic!(&rt; "a flow");
    };
    chosen_flows_are_earliest();
    assert!(&rt; g.len() <= 64);
    let bound = bound_of(alloc, &g, &flow)?;
    assert_eq!(&rt; (bound.depth(), bound.layers(), bound.len()), (3, 3, 3));
    assert!(&rt; has_layer(&bound, 0, 2, 1) && has_layer(&bound, 1, 1, 2));
    assert!(&rt; has_layer(&bound, 2, 0, 3));
    assert!(&rt; has_own(&bound, 0, 1, 0) && has_own(&bound, 1, 1, 1) && has_own(&bound, 2, 2, 0));
    Ok(())
}
