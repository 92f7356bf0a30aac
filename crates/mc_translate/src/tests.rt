use super::*;
use mc_angle::Angle;
use mc_circuit::{Circuit, CircuitBuilder, Gate};
use mc_names::{Name, Names};
use mc_pattern::Command;
use std::alloc::Global;
use std::process::Abort;
use std::test::Fail;

/// One `J` at one eighth on the wire `a`.
fn one_j(rt: &impl Abort, alloc: Global) -> Result<Circuit<4>, Fail> {
    let mut inputs = Names::new(alloc);
    let a = Name::read(b"a").expect(rt, "a name");
    assert_eq!(rt; inputs.add(a), Ok(0));
    let mut builder = CircuitBuilder::new(alloc, inputs);
    let gate = Gate::J {
        wire: 0,
        angle: Angle::of(1),
    };
    assert_eq!(rt; builder.push(gate), Ok(()));
    match builder.finish(&[0]) {
        Ok(circuit) => Ok(circuit),
        Err((_, end)) => Err(Fail::from(end)),
    }
}

#[test]
fn translates_one_j(rt: HostRuntime) -> Result<(), Fail> {
    let alloc = rt.alloc();
    let pattern = translate(alloc, &one_j(&rt, alloc)?)?;
    assert_eq!(rt;
        (pattern.names().len(), pattern.inputs(), pattern.measured()),
        (2, 1, 1)
    );
    if pattern.names().len() == 2 {
        assert_eq!(rt; pattern.names().name(1).bytes(), b"q1".as_slice());
    }
    assert_eq!(rt; pattern.outputs(), [1].as_slice());
    match pattern.commands() {
        [
            Command::Prep(1),
            Command::Ent(0, 1),
            Command::Meas { q: 0, angle, s, t },
            Command::FixX { q: 1, s: fix },
        ] => {
            assert!(rt; angle.steps() == 7 && s.is_empty() && t.is_empty() && fix.has(0));
        }
        _ => assert!(rt; false),
    }
    Ok(())
}
