use super::*;
use mc_angle::Angle;
use mc_graph::OpenGraph;
use mc_lex::{TextEnd, Words};
use std::alloc::Global;
use std::process::Abort;
use std::test::Fail;

fn read(rt: &impl Abort, alloc: Global, text: &str) -> Result<OpenGraph<4>, TextEnd> {
    assert!(rt; text.len() < 100);
    let version = if text.starts_with("graph 2") { 2 } else { 1 };
    let mut words = Words::new(text.as_bytes());
    words.next_line();
    read_graph(alloc, &mut words, version)
}

#[test]
fn reads_a_graph(rt: HostRuntime) -> Result<(), Fail> {
    let text = "graph 2\nin a b\nm a -0003\ne b a\nn c # more\ne c a\nm c 1\nout b\nz b\nend";
    let graph = read(&rt, rt.alloc(), text).ok().expect(&rt, "a graph");
    assert_eq!(rt; (graph.inputs(), graph.len()), (2, 3));
    assert_eq!(rt; graph.outputs(), [1].as_slice());
    assert!(rt; graph.len() == 3);
    assert_eq!(rt; graph.neighbours(0), [1, 2].as_slice());
    assert_eq!(rt; graph.neighbours(2), [0].as_slice());
    assert_eq!(rt; graph.angle_of(0), Some(Angle::of(5)));
    assert_eq!(rt; (graph.fixed(1).x, graph.fixed(1).z), (false, true));
    Ok(())
}

#[test]
fn answers_first_faults(rt: HostRuntime) {
    for (text, code, line, column) in [
        ("graph 1\nin a b\ne a b\ne b a\nout a b\nend\n", 16, 4, 5),
        ("graph 1\nin a\nm a 0\nm a 0\nout\nend\n", 14, 4, 3),
        ("graph 1\nin a\nm a 0\nout a\nend\n", 14, 4, 5),
        ("graph 1\nin a\ne a a\nout a\nend\n", 15, 3, 5),
        ("graph 1\nin a\nout a\nx a\nend\n", 6, 4, 1),
        ("graph 2\nin a\nout a\nx a\nx a\nend\n", 26, 5, 3),
        ("graph 2\nin a b\nm a 0\nout b\nz a\nend\n", 14, 5, 3),
    ] {
        let end = read(&rt, rt.alloc(), text).err().expect(&rt, text);
        assert_eq!(rt; end, TextEnd::Refused { code, line, column });
    }
}
