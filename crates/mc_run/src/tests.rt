use super::*;
use mc_angle::Angle;
use mc_circuit::{Circuit, CircuitBuilder, Gate};
use mc_cyclo::Cyclo;
use mc_model::Memory;
use mc_names::{Name, Names};
use mc_pattern::{Builder, Command, Pattern};
use mc_signal::{Outcomes, Signal};
use std::alloc::Global;
use std::process::Abort;
use std::test::Fail;

fn name(rt: &impl Abort, word: &str) -> Name {
    Name::read(word.as_bytes()).expect(rt, "a name")
}

/// The names `a`, and `b` to `e` as far as they are asked for.
fn names(rt: &impl Abort, alloc: Global, count: usize) -> Names {
    let mut names = Names::new(alloc);
    for word in ["a", "b", "c", "d", "e", "f", "g", "h", "i"]
        .iter()
        .take(count)
    {
        assert_eq!(rt; names.add(name(rt, word)).is_ok(), true);
    }
    names
}

/// `J` at so many eighths on the one wire, so many times.
fn with_j(rt: &impl Abort, alloc: Global, steps: i64, times: u32) -> Result<Circuit<4>, Fail> {
    let mut builder = CircuitBuilder::new(alloc, names(rt, alloc, 1));
    for _ in 0..times {
        let gate = Gate::J {
            wire: 0,
            angle: Angle::of(steps),
        };
        assert_eq!(rt; builder.push(gate), Ok(()));
    }
    match builder.finish(&[0]) {
        Ok(circuit) => Ok(circuit),
        Err((_, end)) => Err(Fail::from(end)),
    }
}

/// Whether an entry of a table from one input to one output has these coordinates.
fn is_entry(table: &Table<4>, y: usize, b: usize, want: [i64; 4]) -> bool {
    if table.outputs() == 1 && table.inputs() == 1 && y < 2 && b < 2 {
        Cyclo::of(&want) == Some(table.at(y, b))
    } else {
        false
    }
}

/// Whether the entries of `J` at one eighth stand, the second column times a sign.
fn is_j(table: &Table<4>, sign: i64) -> bool {
    let w = if sign > 0 {
        [0, 1, 0, 0]
    } else {
        [0, -1, 0, 0]
    };
    let minus_w = if sign > 0 {
        [0, -1, 0, 0]
    } else {
        [0, 1, 0, 0]
    };
    is_entry(table, 0, 0, [1, 0, 0, 0])
        && is_entry(table, 1, 0, [1, 0, 0, 0])
        && is_entry(table, 0, 1, w)
        && is_entry(table, 1, 1, minus_w)
}

#[test]
fn runs_one_j(rt: HostRuntime) -> Result<(), Fail> {
    let alloc = rt.alloc();
    let table = run_circuit(alloc, &with_j(&rt, alloc, 1, 1)?)?;
    assert_eq!(rt;
        (table.outputs(), table.inputs(), table.halves()),
        (1, 1, 1)
    );
    assert_eq!(rt; is_j(&table, 1), true);
    Ok(())
}

#[test]
fn tells_limits(rt: HostRuntime) -> Result<(), Fail> {
    let alloc = rt.alloc();
    assert_eq!(rt;
        run_circuit(alloc, &with_j(&rt, alloc, 0, 60)?).is_ok(),
        true
    );
    match run_circuit(alloc, &with_j(&rt, alloc, 0, 61)?) {
        Ok(_) => assert!(rt; false),
        Err(end) => assert_eq!(rt;
            end,
            RunEnd::Limit {
                which: 5,
                found: 61,
            }
        ),
    }
    let builder: CircuitBuilder<4> = CircuitBuilder::new(alloc, names(&rt, alloc, 9));
    match builder.finish(&[0, 1, 2, 3, 4, 5, 6, 7, 8]) {
        Ok(circuit) => match run_circuit(alloc, &circuit) {
            Ok(_) => assert!(rt; false),
            Err(end) => assert_eq!(rt;
                end,
                RunEnd::Limit {
                    which: 4,
                    found: 18,
                }
            ),
        },
        Err(_) => assert!(rt; false),
    }
    Ok(())
}

fn signal_of(alloc: Global, q: u16) -> Result<Signal, Memory> {
    let mut signal = Signal::empty(alloc);
    if q < 256 {
        signal.toggle(q)?;
    }
    Ok(signal)
}

/// What `J` at one eighth becomes, with or without its correction.
fn pattern(rt: &impl Abort, alloc: Global, corrected: bool) -> Result<Pattern<4>, Fail> {
    let mut builder = Builder::new(alloc, names(rt, alloc, 1))?;
    assert_eq!(rt; builder.prep(name(rt, "b")), Ok(1));
    assert_eq!(rt; builder.push(Command::Ent(0, 1)), Ok(()));
    let measure = Command::Meas {
        q: 0,
        angle: Angle::of(7),
        s: Signal::empty(alloc),
        t: Signal::empty(alloc),
    };
    assert_eq!(rt; builder.push(measure), Ok(()));
    if corrected {
        let fix = Command::FixX {
            q: 1,
            s: signal_of(alloc, 0)?,
        };
        assert_eq!(rt; builder.push(fix), Ok(()));
    }
    match builder.finish(&[1]) {
        Ok(pattern) => Ok(pattern),
        Err((_, end)) => Err(Fail::from(end)),
    }
}

/// The table of a pattern of two qubits where the first has this outcome.
fn branch(alloc: Global, pattern: &Pattern<4>, outcome: bool) -> Result<Table<4>, Fail> {
    let count = pattern.names().len();
    let mut outcomes = Outcomes::new(alloc, count)?;
    if count > 0 {
        outcomes.set(0, outcome);
    }
    let table = run_branch(alloc, pattern, &outcomes)?;
    Ok(table)
}

#[test]
fn runs_branches(rt: HostRuntime) -> Result<(), Fail> {
    let alloc = rt.alloc();
    for (corrected, outcome, sign) in [
        (true, false, 1),
        (true, true, 1),
        (false, false, 1),
        (false, true, -1),
    ] {
        let table = branch(alloc, &pattern(&rt, alloc, corrected)?, outcome)?;
        assert_eq!(rt; table.halves(), 2);
        assert_eq!(rt; is_j(&table, sign), true);
    }
    Ok(())
}

/// The number of branches, and the phase of each of the first two whose table has the entries of
/// `J` times its sign.
fn phases_with(report: &Report<4>, signs: [i64; 2]) -> [Option<u32>; 2] {
    if report.branches() == 2
        && is_j(report.branch(0), signs[0])
        && is_j(report.branch(1), signs[1])
    {
        [report.phase(0), report.phase(1)]
    } else {
        [Some(u32::MAX), Some(u32::MAX)]
    }
}

#[test]
fn runs_all_branches(rt: HostRuntime) -> Result<(), Fail> {
    let alloc = rt.alloc();
    let report = run_all(alloc, &pattern(&rt, alloc, true)?)?;
    assert_eq!(rt; phases_with(&report, [1, 1]), [Some(0), Some(0)]);
    let report = run_all(alloc, &pattern(&rt, alloc, false)?)?;
    assert_eq!(rt; phases_with(&report, [1, -1]), [Some(0), None]);
    Ok(())
}
