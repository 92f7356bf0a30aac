use super::*;
use mc_circuit::{Angle, Gate};
use std::test::Fail;

#[test]
fn makes_the_first_sample(rt: HostRuntime) -> Result<(), Fail> {
    let circuit = sample(rt.alloc(), 1)?;
    assert_eq!(rt; (circuit.names().len(), circuit.inputs()), (8, 4));
    let j = Gate::J {
        wire: 6,
        angle: Angle::of(0),
    };
    assert_eq!(rt; circuit.gates(), [j, Gate::Cz { a: 6, b: 3 }].as_slice());
    assert_eq!(rt; circuit.out(), [0, 1, 2, 3, 4, 5, 6, 7].as_slice());
    Ok(())
}
