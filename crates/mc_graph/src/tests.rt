ghost use Rattle.std.specs.Prelude.{IsTrue};
ghost use Rattle.mc_model.specs.Steps.{is_permitted};

use super::*;
use mc_model::Memory;
use mc_pattern::{Builder, Command, Pattern, Signal};
use std::alloc::Global;
use std::process::Abort;
use std::test::Fail;

fn name(rt: &impl Abort, word: &str) -> Name {
    Name::read(word.as_bytes()).expect(rt, "a name")
}

fn one_member(alloc: Global, q: u16) -> Result<QSet, Memory> {
    let mut set = QSet::new(alloc);
    if q < 256 {
        set.toggle(q)?;
    }
    Ok(set)
}

/// An edge from the input `a`, measured at a negative eighth, to `b`.
fn with_an_edge(rt: &impl Abort, alloc: Global) -> Result<GraphBuilder<4>, Fail> {
    let mut inputs = Names::new(alloc);
    assert_eq!(rt; inputs.add(name(rt, "a")), Ok(0));
    let mut builder: GraphBuilder<4> = GraphBuilder::new(alloc, inputs)?;
    assert_eq!(rt; builder.vertex(name(rt, "a")), Err(GraphEnd::Twice(0)));
    assert_eq!(rt; builder.vertex(name(rt, "b")), Ok(1));
    assert_eq!(rt; builder.edge(1, 0), Ok(()));
    assert_eq!(rt; builder.edge(0, 1), Err(GraphEnd::Rule(3)));
    assert_eq!(rt; builder.angle(0, Angle::of(-1)), Ok(()));
    Ok(builder)
}

fn finished(builder: GraphBuilder<4>, outputs: &[u16]) -> Result<OpenGraph<4>, GraphEnd> {
    match builder.finish(outputs) {
        Ok(graph) => Ok(graph),
        Err((_, end)) => Err(end),
    }
}

#[test]
fn builds_a_graph(rt: HostRuntime) -> Result<(), Fail> {
    let alloc = rt.alloc();
    let mut builder = with_an_edge(&rt, alloc)?;
    assert_eq!(rt; builder.fix_z(1), Ok(()));
    let graph = finished(builder, &[1])?;
    assert_eq!(rt; (graph.len(), graph.inputs()), (2, 1));
    assert_eq!(rt; graph.outputs(), [1].as_slice());
    if graph.len() == 2 {
        assert_eq!(rt; graph.neighbours(0), [1].as_slice());
        assert_eq!(rt; graph.neighbours(1), [0].as_slice());
        assert_eq!(rt;
            (graph.angle_of(0), graph.angle_of(1)),
            (Some(Angle::of(7)), None)
        );
        assert_eq!(rt; graph.fixed(1), Fixed { x: false, z: true });
    }
    Ok(())
}

#[test]
fn refuses_a_fixed_correction_inside(rt: HostRuntime) -> Result<(), Fail> {
    let alloc = rt.alloc();
    let mut builder = with_an_edge(&rt, alloc)?;
    assert_eq!(rt; builder.fix_x(0), Ok(()));
    match finished(builder, &[1]) {
        Ok(_) => assert!(rt; false),
        Err(end) => assert_eq!(rt; end, GraphEnd::Rule(8)),
    }
    Ok(())
}

/// `a`, corrected whatever the outcomes, is entangled with `b` and measured at an eighth.
fn corrected<const H: usize>(rt: &impl Abort, alloc: Global) -> Result<Pattern<H>, Fail>
    requires { IsTrue (is_permitted H) }
{
    let mut inputs = Names::new(alloc);
    assert_eq!(rt; inputs.add(name(rt, "a")), Ok(0));
    let mut builder: Builder<H> = Builder::new(alloc, inputs)?;
    assert_eq!(rt; builder.prep(name(rt, "b")), Ok(1));
    let fix = Command::FixX {
        q: 0,
        s: Signal::one(alloc),
    };
    assert_eq!(rt; builder.push(fix), Ok(()));
    assert_eq!(rt; builder.push(Command::Ent(0, 1)), Ok(()));
    let measure = Command::Meas {
        q: 0,
        angle: Angle::of(1),
        s: Signal::empty(alloc),
        t: Signal::empty(alloc),
    };
    assert_eq!(rt; builder.push(measure), Ok(()));
    match builder.finish(&[1]) {
        Ok(pattern) => Ok(pattern),
        Err((_, end)) => Err(Fail::from(end)),
    }
}

#[test]
fn reads_the_graph_of_a_pattern(rt: HostRuntime) -> Result<(), Fail> {
    let alloc = rt.alloc();
    let pattern: Pattern<4> = corrected(&rt, alloc)?;
    let graph = graph_of(alloc, &pattern)?;
    assert_eq!(rt; graph.len(), 2);
    if graph.len() == 2 {
        assert_eq!(rt; graph.neighbours(0), [1].as_slice());
        assert_eq!(rt; graph.angle_of(0), Some(Angle::of(7)));
        assert_eq!(rt; graph.fixed(1), Fixed { x: false, z: true });
    }
    let pattern: Pattern<8> = corrected(&rt, alloc)?;
    let graph = graph_of(alloc, &pattern)?;
    assert_eq!(rt; graph.len(), 2);
    if graph.len() == 2 {
        assert_eq!(rt; graph.angle_of(0), Some(Angle::of(15)));
    }
    Ok(())
}

#[test]
fn keeps_one_row_for_a_vertex(rt: HostRuntime) -> Result<(), Fail> {
    let alloc = rt.alloc();
    let mut flow = GFlow::new(alloc, 1);
    assert_eq!(rt; flow.push(0, 1, one_member(alloc, 1)?), Ok(()));
    assert_eq!(rt; flow.push(0, 2, one_member(alloc, 2)?), Err(RowEnd::Second));
    assert_eq!(rt; (flow.len(), flow.depth()), (1, 1));
    let mut refuter = Refuter::new(alloc);
    assert_eq!(rt; refuter.push(3, one_member(alloc, 3)?), Ok(()));
    assert_eq!(rt; refuter.push(3, one_member(alloc, 4)?), Err(RowEnd::Second));
    assert_eq!(rt; refuter.len(), 1);
    Ok(())
}

#[test]
fn makes_the_pattern_without_a_flow(rt: HostRuntime) -> Result<(), Fail> {
    let alloc = rt.alloc();
    let mut builder = with_an_edge(&rt, alloc)?;
    assert_eq!(rt; builder.fix_z(1), Ok(()));
    let graph = finished(builder, &[1])?;
    assert_eq!(rt; graph.edge_count(), 1);
    let pattern = zero_pattern(alloc, &graph)?;
    match pattern.commands() {
        [
            Command::Prep(1),
            Command::Ent(0, 1),
            Command::Meas { q: 0, angle, s, t },
            Command::FixZ { q: 1, s: fix },
        ] => {
            assert!(rt; angle.steps() == 7 && s.is_empty() && t.is_empty() && fix.constant());
        }
        _ => assert!(rt; false),
    }
    Ok(())
}

#[test]
fn orders_by_falling_layer(rt: HostRuntime) -> Result<(), Fail> {
    let alloc = rt.alloc();
    let graph = finished(with_an_edge(&rt, alloc)?, &[1])?;
    let mut flow = GFlow::new(alloc, 1);
    assert_eq!(rt; flow.push(0, 1, one_member(alloc, 1)?), Ok(()));
    let order = order_of(alloc, &graph, &flow)?;
    assert_eq!(rt; order.as_slice(), [0].as_slice());
    Ok(())
}
