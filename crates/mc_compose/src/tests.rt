use super::*;
use mc_pattern::{Angle, Builder, Command, Name, Names, Pattern, Signal};
use mc_run::run_branch;
use mc_signal::Outcomes;
use std::alloc::Global;
use std::process::Abort;
use std::test::Fail;

/// The pattern of a `J` at one step on the wire `a`.
fn one_gate(rt: &impl Abort, alloc: Global) -> Result<Pattern<4>, Fail> {
    let mut inputs = Names::new(alloc);
    let a = Name::read(b"a").expect(rt, "a name");
    assert_eq!(rt; inputs.add(a), Ok(0));
    let mut builder = Builder::new(alloc, inputs)?;
    let name = builder.names().fresh();
    assert_eq!(rt; builder.prep(name), Ok(1));
    assert_eq!(rt; builder.push(Command::Ent(0, 1)), Ok(()));
    let measure = Command::Meas {
        q: 0,
        angle: Angle::of(-1),
        s: Signal::empty(alloc),
        t: Signal::empty(alloc),
    };
    assert_eq!(rt; builder.push(measure), Ok(()));
    let mut s = Signal::empty(alloc);
    s.toggle(0)?;
    assert_eq!(rt; builder.push(Command::FixX { q: 1, s }), Ok(()));
    match builder.finish(&[1]) {
        Ok(pattern) => Ok(pattern),
        Err((_, end)) => Err(Fail::from(end)),
    }
}

#[test]
fn chains_two_gates(rt: HostRuntime) -> Result<(), Fail> {
    let alloc = rt.alloc();
    let gate = one_gate(&rt, alloc)?;
    assert!(rt; gate.outputs().len() == gate.inputs() as usize);
    let twice = chain(alloc, &gate, &gate)?;
    assert_eq!(rt;
        (twice.names().len(), twice.inputs(), twice.outputs()),
        (3, 1, [2].as_slice())
    );
    match twice.commands() {
        [
            _,
            _,
            _,
            _,
            Command::Prep(q),
            Command::Ent(a, b),
            _,
            Command::FixX { q: r, s },
        ] => {
            assert!(rt; *q == 2 && *a == 1 && *b == 2 && *r == 2 && s.has(1) && !s.has(0));
        }
        _ => assert!(rt; false),
    }
    Ok(())
}

#[test]
fn puts_two_gates_side_by_side(rt: HostRuntime) -> Result<(), Fail> {
    let alloc = rt.alloc();
    let gate = one_gate(&rt, alloc)?;
    let two = beside(alloc, &gate, &gate)?;
    assert_eq!(rt; (two.inputs(), two.outputs()), (2, [2, 3].as_slice()));
    assert!(rt; two.names().len() == 4);
    assert_eq!(rt; two.names().name(1).bytes(), b"q2".as_slice());
    assert_eq!(rt; two.names().name(2).bytes(), b"q1".as_slice());
    Ok(())
}

/// The product of a gate's table with itself is the table of the gate chained with itself.
#[test]
fn multiplies_two_tables(rt: HostRuntime) -> Result<(), Fail> {
    let alloc = rt.alloc();
    let gate = one_gate(&rt, alloc)?;
    assert!(rt; gate.outputs().len() == gate.inputs() as usize);
    let twice = chain(alloc, &gate, &gate)?;
    let table = run_branch(alloc, &gate, &Outcomes::new(alloc, gate.names().len())?)?;
    let whole = run_branch(alloc, &twice, &Outcomes::new(alloc, twice.names().len())?)?;
    assert!(rt; table.outputs() == 1 && table.inputs() == 1);
    assert!(rt; whole.outputs() == 1 && whole.inputs() == 1);
    let product = product(alloc, &table, &table)?;
    assert!(rt; product.rows() == 2 && product.columns() == 2);
    assert!(rt; product.at(0, 0) == whole.at(0, 0));
    assert!(rt; product.at(1, 0) == whole.at(1, 0));
    Ok(())
}
