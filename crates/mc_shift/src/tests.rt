use super::*;
use mc_model::Memory;
use mc_pattern::{Angle, Builder, Command, Name, Names, Pattern, Signal};
use mc_standard::{Fix, standardise};
use std::alloc::Global;
use std::process::Abort;
use std::test::Fail;

fn one(alloc: Global, q: u16) -> Result<Signal, Memory> {
    let mut signal = Signal::empty(alloc);
    if q < 256 {
        signal.toggle(q)?;
    }
    Ok(signal)
}

/// A `J` at an angle on a qubit, from which the wire moves on to the next one.
fn push_j(
    rt: &impl Abort,
    alloc: Global,
    builder: &mut Builder<4>,
    q: u16,
    next: u16,
    steps: i64,
) -> Result<(), Fail> {
    let name = builder.names().fresh();
    assert_eq!(rt; builder.prep(name), Ok(next));
    assert_eq!(rt; builder.push(Command::Ent(q, next)), Ok(()));
    let measure = Command::Meas {
        q,
        angle: Angle::of(steps),
        s: Signal::empty(alloc),
        t: Signal::empty(alloc),
    };
    assert_eq!(rt; builder.push(measure), Ok(()));
    let fix = Command::FixX {
        q: next,
        s: one(alloc, q)?,
    };
    assert_eq!(rt; builder.push(fix), Ok(()));
    Ok(())
}

/// `J` at one, two and three eighths on the wire `a`.
fn three_j(rt: &impl Abort, alloc: Global) -> Result<Pattern<4>, Fail> {
    let mut inputs = Names::new(alloc);
    let a = Name::read(b"a").expect(rt, "a name");
    assert_eq!(rt; inputs.add(a), Ok(0));
    let mut builder = Builder::new(alloc, inputs)?;
    push_j(rt, alloc, &mut builder, 0, 1, -1)?;
    push_j(rt, alloc, &mut builder, 1, 2, -2)?;
    push_j(rt, alloc, &mut builder, 2, 3, -3)?;
    match builder.finish(&[3]) {
        Ok(pattern) => Ok(pattern),
        Err((_, end)) => Err(Fail::from(end)),
    }
}

#[test]
fn shifts_three_j(rt: HostRuntime) -> Result<(), Fail> {
    let alloc = rt.alloc();
    let standard = standardise(alloc, &three_j(&rt, alloc)?)?;
    let (shifted, change) = shift(alloc, &standard)?;
    match shifted.measures() {
        [a, b, c] => {
            assert!(rt; a.q == 0 && a.angle.steps() == 7 && a.s.is_empty() && a.t.is_empty());
            assert!(rt; b.q == 1 && b.s.has(0) && !b.s.has(1) && b.t.is_empty());
            assert!(rt; c.q == 2 && c.s.has(1) && !c.s.has(0) && c.t.is_empty());
        }
        _ => assert!(rt; false),
    }
    match shifted.fixes() {
        [Fix::X { q: 3, s: x }, Fix::Z { q: 3, s: z }] => {
            assert!(rt; x.has(0) && !x.has(1) && x.has(2) && z.has(1) && !z.has(0));
        }
        _ => assert!(rt; false),
    }
    assert_eq!(rt; change.len(), 3);
    if change.len() == 3 {
        let (first, second, third) = (change.row(0), change.row(1), change.row(2));
        assert_eq!(rt; (first.0, second.0, third.0), (0, 1, 2));
        assert!(rt; first.1.is_empty() && second.1.is_empty());
        assert!(rt; third.1.has(0) && !third.1.has(1));
    }
    Ok(())
}
