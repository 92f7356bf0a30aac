use super::*;
use mc_circuit::{Angle, CircuitBuilder, Gate, Name, Names};
use mc_pattern::Command;
use std::process::Abort;
use std::test::Fail;

fn name(rt: &impl Abort, word: &str) -> Name {
    Name::read(word.as_bytes()).expect(rt, "a name")
}

/// A `J` at an eighth on one wire.
#[test]
fn compiles_one_gate(rt: HostRuntime) -> Result<(), Fail> {
    let alloc = rt.alloc();
    let mut inputs = Names::new(alloc);
    assert_eq!(rt; inputs.add(name(&rt, "a")), Ok(0));
    let mut builder: CircuitBuilder<4> = CircuitBuilder::new(alloc, inputs);
    let j = Gate::J {
        wire: 0,
        angle: Angle::of(1),
    };
    assert_eq!(rt; builder.push(j), Ok(()));
    let Ok(circuit) = builder.finish(&[0]) else {
        assert!(rt; false);
        return Ok(());
    };
    let compiled = compile(alloc, &circuit)?;
    assert_eq!(rt; (compiled.edges, compiled.depth), (1, 1));
    match compiled.pattern.commands() {
        [
            Command::Prep(1),
            Command::Ent(0, 1),
            Command::Meas { q: 0, angle, s, t },
            Command::FixX { q: 1, s: fix },
        ] => {
            assert!(rt; angle.steps() == 7 && s.is_empty() && t.is_empty() && fix.has(0));
        }
        _ => assert!(rt; false),
    }
    Ok(())
}
