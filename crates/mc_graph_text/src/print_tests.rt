use super::*;
use mc_graph::{Angle, GraphBuilder, Name, Names, OpenGraph};
use std::alloc::Global;
use std::process::Abort;
use std::test::Fail;

fn name(rt: &impl Abort, word: &str) -> Name {
    Name::read(word.as_bytes()).expect(rt, "a name")
}

/// The input `a`, measured at a negative eighth and joined to the outputs `b` and `c`.
fn star(rt: &impl Abort, alloc: Global) -> Result<GraphBuilder<4>, Fail> {
    let mut inputs = Names::new(alloc);
    assert_eq!(rt; inputs.add(name(rt, "a")), Ok(0));
    let mut builder: GraphBuilder<4> = GraphBuilder::new(alloc, inputs)?;
    assert_eq!(rt; builder.vertex(name(rt, "b")), Ok(1));
    assert_eq!(rt; builder.vertex(name(rt, "c")), Ok(2));
    assert_eq!(rt; builder.edge(2, 0), Ok(()));
    assert_eq!(rt; builder.edge(0, 1), Ok(()));
    assert_eq!(rt; builder.angle(0, Angle::of(-1)), Ok(()));
    Ok(builder)
}

fn finished(rt: &impl Abort, builder: GraphBuilder<4>) -> OpenGraph<4> {
    builder.finish(&[2, 1]).ok().expect(rt, "a graph")
}

#[test]
fn prints_graphs(rt: HostRuntime) -> Result<(), Fail> {
    let alloc = rt.alloc();
    let graph = finished(&rt, star(&rt, alloc)?);
    let text = print_graph(alloc, &graph)?;
    let want = "graph 1\nin a\nn b\nn c\ne a b\ne a c\nm a 7\nout c b\nend\n";
    assert_eq!(rt; text.as_slice(), want.as_bytes());
    let mut builder = star(&rt, alloc)?;
    assert_eq!(rt; builder.fix_z(2), Ok(()));
    assert_eq!(rt; builder.fix_x(2), Ok(()));
    assert_eq!(rt; builder.fix_z(1), Ok(()));
    let graph = finished(&rt, builder);
    let text = print_graph(alloc, &graph)?;
    let want = "graph 2\nin a\nn b\nn c\ne a b\ne a c\nm a 7\nout c b\nz b\nx c\nz c\nend\n";
    assert_eq!(rt; text.as_slice(), want.as_bytes());
    Ok(())
}

#[test]
fn laws_hold_for_eighths() {
    canonical_texts_are_read::<4>();
    canonical_texts_differ::<4>();
}
