use super::*;
use mc_model::Memory;
use std::alloc::Global;
use std::mem::size_of;
use std::process::Abort;
use std::test::Fail;

fn name(rt: &impl Abort, word: &str) -> Name {
    Name::read(word.as_bytes()).expect(rt, "a name")
}

fn one(alloc: Global, q: u16) -> Result<Signal, Memory> {
    let mut signal = Signal::empty(alloc);
    if q < 256 {
        signal.toggle(q)?;
    }
    Ok(signal)
}

fn with_input(rt: &impl Abort, alloc: Global) -> Result<Builder<4>, Fail> {
    let mut inputs = Names::new(alloc);
    assert_eq!(rt; inputs.add(name(rt, "a")), Ok(0));
    let builder = Builder::new(alloc, inputs)?;
    Ok(builder)
}

/// `J` at one eighth: the input is measured, and what comes out is corrected.
fn with_j(rt: &impl Abort, alloc: Global) -> Result<Builder<4>, Fail> {
    let mut builder = with_input(rt, alloc)?;
    assert_eq!(rt; builder.prep(name(rt, "a")), Err(PushEnd::Twice(0)));
    assert_eq!(rt; builder.prep(name(rt, "q1")), Ok(1));
    assert_eq!(rt; builder.push(Command::Ent(0, 1)), Ok(()));
    let measure = Command::Meas {
        q: 0,
        angle: Angle::of(-1),
        s: Signal::empty(alloc),
        t: Signal::empty(alloc),
    };
    assert_eq!(rt; builder.push(measure), Ok(()));
    let fix = Command::FixX {
        q: 1,
        s: one(alloc, 0)?,
    };
    assert_eq!(rt; builder.push(fix), Ok(()));
    Ok(builder)
}

#[test]
fn refuses_broken_commands(rt: HostRuntime) -> Result<(), Fail> {
    let alloc = rt.alloc();
    let mut builder = with_input(&rt, alloc)?;
    assert_eq!(rt; builder.push(Command::Ent(0, 0)), Err(PushEnd::Rule(3)));
    let fix = Command::FixX {
        q: 0,
        s: one(alloc, 0)?,
    };
    assert_eq!(rt; builder.push(fix), Err(PushEnd::Rule(4)));
    let mut builder = with_j(&rt, alloc)?;
    assert_eq!(rt; builder.push(Command::Ent(0, 9)), Err(PushEnd::Rule(1)));
    assert_eq!(rt; builder.push(Command::Ent(0, 0)), Err(PushEnd::Rule(2)));
    Ok(())
}

#[test]
fn refuses_broken_outputs(rt: HostRuntime) -> Result<(), Fail> {
    let alloc = rt.alloc();
    for (outputs, rule) in [([2, 0], 5), ([1, 0], 6), ([1, 1], 7)] {
        match with_j(&rt, alloc)?.finish(&outputs) {
            Ok(_) => assert_eq!(rt; rule, 0),
            Err((_, end)) => assert_eq!(rt; end, PushEnd::Rule(rule)),
        }
    }
    match with_j(&rt, alloc)?.finish(&[]) {
        Ok(_) => assert!(rt; false),
        Err((_, end)) => assert_eq!(rt; end, PushEnd::Rule(8)),
    }
    Ok(())
}

#[test]
fn builds_a_pattern(rt: HostRuntime) -> Result<(), Fail> {
    let alloc = rt.alloc();
    match with_j(&rt, alloc)?.finish(&[1]) {
        Ok(pattern) => {
            assert_eq!(rt;
                (pattern.names().len(), pattern.inputs(), pattern.measured()),
                (2, 1, 1)
            );
            assert_eq!(rt; pattern.outputs(), [1].as_slice());
            match pattern.commands() {
                [
                    Command::Prep(1),
                    Command::Ent(0, 1),
                    Command::Meas { q: 0, angle, s, t },
                    Command::FixX { q: 1, s: fix },
                ] => {
                    assert!(rt; angle.steps() == 7 && s.is_empty() && t.is_empty() && fix.has(0));
                }
                _ => assert!(rt; false),
            }
        }
        Err(_) => assert!(rt; false),
    }
    Ok(())
}

#[test]
fn lists_changes(rt: HostRuntime) -> Result<(), Fail> {
    let alloc = rt.alloc();
    let mut change = Change::new(alloc);
    change.push(4, one(alloc, 2)?)?;
    assert_eq!(rt; change.len(), 1);
    if change.len() == 1 {
        let (q, s) = change.row(0);
        assert!(rt; q == 4 && s.has(2));
    }
    Ok(())
}

/// The most commands take less than 32 MiB, and with the list that they are moved from while it grows less than 64 MiB.
#[test]
fn commands_are_small(rt: HostRuntime) {
    assert_eq!(rt; size_of::<Command<4>>(), 88);
}
