use super::*;
use mc_circuit::Gate;
use mc_graph::{Angle, GraphBuilder, Name, Names, OpenGraph};
use std::alloc::Global;
use std::process::Abort;
use std::test::Fail;

fn name(rt: &impl Abort, word: &str) -> Name {
    Name::read(word.as_bytes()).expect(rt, "a name")
}

/// From the input `a` to the output `b`, measured at an eighth, and two outputs that are joined: `b` and `c`.
fn joined(rt: &impl Abort, alloc: Global) -> Result<OpenGraph<4>, Fail> {
    let mut inputs = Names::new(alloc);
    assert_eq!(rt; inputs.add(name(rt, "a")), Ok(0));
    let mut builder: GraphBuilder<4> = GraphBuilder::new(alloc, inputs)?;
    assert_eq!(rt; builder.vertex(name(rt, "b")), Ok(1));
    assert_eq!(rt; builder.vertex(name(rt, "c")), Ok(2));
    assert_eq!(rt; builder.edge(0, 1), Ok(()));
    assert_eq!(rt; builder.edge(1, 2), Ok(()));
    assert_eq!(rt; builder.angle(0, Angle::of(1)), Ok(()));
    match builder.finish(&[1, 2]) {
        Ok(graph) => Ok(graph),
        Err((_, end)) => Err(Fail::from(end)),
    }
}

#[test]
fn extracts_by_the_flow(rt: HostRuntime) -> Result<(), Fail> {
    let alloc = rt.alloc();
    let graph = joined(&rt, alloc)?;
    assert_eq!(rt; gates_to_extract(&graph), 2);
    match find_causal(alloc, &graph)? {
        Causal::Flow(flow) => {
            assert_eq!(rt; (flow.depth(), flow.len()), (1, 1));
            if gates_to_extract(&graph) <= 32_768 {
                let circuit = extract(alloc, &graph, &flow)?;
                assert_eq!(rt; circuit.names().len(), 2);
                assert_eq!(rt; circuit.out(), [0, 1].as_slice());
                assert_eq!(rt;
                    circuit.gates(),
                    [
                        Gate::J {
                            wire: 0,
                            angle: Angle::of(7)
                        },
                        Gate::Cz { a: 0, b: 1 },
                    ]
                    .as_slice()
                );
            }
        }
        Causal::Stuck(_) => assert!(rt; false),
    }
    Ok(())
}
