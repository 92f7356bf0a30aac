use super::*;
use mc_angle::Angle;
use mc_circuit::{Circuit, CircuitBuilder, Gate};
use mc_model::Memory;
use mc_names::{Name, Names};
use mc_pattern::{Builder, Command, Pattern};
use mc_run::{run_all, run_branch, run_circuit};
use mc_signal::{Outcomes, Signal};
use std::alloc::Global;
use std::process::Abort;
use std::test::Fail;

fn name(rt: &impl Abort, word: &str) -> Name {
    Name::read(word.as_bytes()).expect(rt, "a name")
}

/// The one name `a`.
fn one_name(rt: &impl Abort, alloc: Global) -> Names {
    let mut names = Names::new(alloc);
    assert_eq!(rt; names.add(name(rt, "a")).is_ok(), true);
    names
}

/// `J` at one eighth.
fn circuit(rt: &impl Abort, alloc: Global) -> Result<Circuit<4>, Fail> {
    let mut builder = CircuitBuilder::new(alloc, one_name(rt, alloc));
    let gate = Gate::J {
        wire: 0,
        angle: Angle::of(1),
    };
    assert_eq!(rt; builder.push(gate), Ok(()));
    match builder.finish(&[0]) {
        Ok(circuit) => Ok(circuit),
        Err((_, end)) => Err(Fail::from(end)),
    }
}

/// `J` at one eighth as a pattern, with or without its correction.
fn measured(rt: &impl Abort, alloc: Global, corrected: bool) -> Result<Pattern<4>, Fail> {
    let mut builder = Builder::new(alloc, one_name(rt, alloc))?;
    assert_eq!(rt; builder.prep(name(rt, "b")), Ok(1));
    assert_eq!(rt; builder.push(Command::Ent(0, 1)), Ok(()));
    let measure = Command::Meas {
        q: 0,
        angle: Angle::of(7),
        s: Signal::empty(alloc),
        t: Signal::empty(alloc),
    };
    assert_eq!(rt; builder.push(measure), Ok(()));
    if corrected {
        let mut s = Signal::empty(alloc);
        s.toggle(0)?;
        assert_eq!(rt; builder.push(Command::FixX { q: 1, s }), Ok(()));
    }
    match builder.finish(&[1]) {
        Ok(pattern) => Ok(pattern),
        Err((_, end)) => Err(Fail::from(end)),
    }
}

/// Two qubits and an edge, both of them outputs.
fn edge(rt: &impl Abort, alloc: Global) -> Result<Pattern<4>, Fail> {
    let mut builder = Builder::new(alloc, one_name(rt, alloc))?;
    assert_eq!(rt; builder.prep(name(rt, "b")), Ok(1));
    assert_eq!(rt; builder.push(Command::Ent(0, 1)), Ok(()));
    match builder.finish(&[0, 1]) {
        Ok(pattern) => Ok(pattern),
        Err((_, end)) => Err(Fail::from(end)),
    }
}

#[test]
fn prints_a_table(rt: HostRuntime) -> Result<(), Fail> {
    let alloc = rt.alloc();
    let table = run_circuit(alloc, &circuit(&rt, alloc)?)?;
    let text = print_table(alloc, &table)?;
    assert_eq!(rt;
        text.as_slice(),
        b"table 1
amp 0 0 1 0 0 0 / 1
amp 1 0 1 0 0 0 / 1
amp 0 1 0 1 0 0 / 1
amp 1 1 0 -1 0 0 / 1
end
"
            .as_slice()
    );
    Ok(())
}

#[test]
fn prints_a_branch(rt: HostRuntime) -> Result<(), Fail> {
    let alloc = rt.alloc();
    let pattern = measured(&rt, alloc, true)?;
    let count = pattern.names().len();
    let mut outcomes = Outcomes::new(alloc, count)?;
    if count > 0 {
        outcomes.set(0, true);
    }
    let table = run_branch(alloc, &pattern, &outcomes)?;
    let text = print_branch(alloc, &table, &[true])?;
    assert_eq!(rt;
        text.as_slice(),
        b"table 1
branch 1
amp 0 0 1 0 0 0 / 2
amp 1 0 1 0 0 0 / 2
amp 0 1 0 1 0 0 / 2
amp 1 1 0 -1 0 0 / 2
end
"
            .as_slice()
    );
    Ok(())
}

/// The text of the report on a pattern.
fn report_of(alloc: Global, pattern: &Pattern<4>) -> Result<Vec<u8>, Fail> {
    let report = run_all(alloc, pattern)?;
    let text = print_report(alloc, &report, pattern.measured())?;
    Ok(text)
}

#[test]
fn prints_branches_that_are_alike(rt: HostRuntime) -> Result<(), Fail> {
    let alloc = rt.alloc();
    let text = report_of(alloc, &measured(&rt, alloc, true)?)?;
    assert_eq!(rt;
        text.as_slice(),
        b"branches 1
branch 0 phase 0
amp 0 0 1 0 0 0 / 2
amp 1 0 1 0 0 0 / 2
amp 0 1 0 1 0 0 / 2
amp 1 1 0 -1 0 0 / 2
branch 1 phase 0
amp 0 0 1 0 0 0 / 2
amp 1 0 1 0 0 0 / 2
amp 0 1 0 1 0 0 / 2
amp 1 1 0 -1 0 0 / 2
alike yes
end
"
            .as_slice()
    );
    Ok(())
}

#[test]
fn prints_branches_that_differ(rt: HostRuntime) -> Result<(), Fail> {
    let alloc = rt.alloc();
    let text = report_of(alloc, &measured(&rt, alloc, false)?)?;
    assert_eq!(rt;
        text.as_slice(),
        b"branches 1
branch 0 phase 0
amp 0 0 1 0 0 0 / 2
amp 1 0 1 0 0 0 / 2
amp 0 1 0 1 0 0 / 2
amp 1 1 0 -1 0 0 / 2
branch 1 phase none
amp 0 0 1 0 0 0 / 2
amp 1 0 1 0 0 0 / 2
amp 0 1 0 -1 0 0 / 2
amp 1 1 0 1 0 0 / 2
alike no
end
"
            .as_slice()
    );
    Ok(())
}

#[test]
fn prints_the_one_branch(rt: HostRuntime) -> Result<(), Fail> {
    let alloc = rt.alloc();
    let text = report_of(alloc, &edge(&rt, alloc)?)?;
    assert_eq!(rt;
        text.as_slice(),
        b"branches 1
branch - phase 0
amp 00 0 1 0 0 0 / 1
amp 01 0 1 0 0 0 / 1
amp 10 0 0 0 0 0 / 0
amp 11 0 0 0 0 0 / 0
amp 00 1 0 0 0 0 / 0
amp 01 1 0 0 0 0 / 0
amp 10 1 1 0 0 0 / 1
amp 11 1 -1 0 0 0 / 1
alike yes
end
"
            .as_slice()
    );
    Ok(())
}

#[test]
fn runs_a_circuit(rt: HostRuntime) -> Result<(), Fail> {
    let alloc = rt.alloc();
    let text = run_circuit_text(alloc, &circuit(&rt, alloc)?)?;
    assert_eq!(rt;
        text.as_slice(),
        b"table 1
amp 0 0 1 0 0 0 / 1
amp 1 0 1 0 0 0 / 1
amp 0 1 0 1 0 0 / 1
amp 1 1 0 -1 0 0 / 1
end
"
            .as_slice()
    );
    Ok(())
}

#[test]
fn runs_a_branch(rt: HostRuntime) -> Result<(), Fail> {
    let alloc = rt.alloc();
    let pattern = measured(&rt, alloc, false)?;
    assert_eq!(rt; pattern.measured(), 1);
    let text = run_branch_text(alloc, &pattern, &[true])?;
    assert_eq!(rt;
        text.as_slice(),
        b"table 1
branch 1
amp 0 0 1 0 0 0 / 2
amp 1 0 1 0 0 0 / 2
amp 0 1 0 -1 0 0 / 2
amp 1 1 0 1 0 0 / 2
end
"
            .as_slice()
    );
    Ok(())
}

#[test]
fn runs_all_branches(rt: HostRuntime) -> Result<(), Fail> {
    let alloc = rt.alloc();
    let text = run_all_text(alloc, &measured(&rt, alloc, true)?)?;
    assert_eq!(rt;
        text.as_slice(),
        b"branches 1
branch 0 phase 0
amp 0 0 1 0 0 0 / 2
amp 1 0 1 0 0 0 / 2
amp 0 1 0 1 0 0 / 2
amp 1 1 0 -1 0 0 / 2
branch 1 phase 0
amp 0 0 1 0 0 0 / 2
amp 1 0 1 0 0 0 / 2
amp 0 1 0 1 0 0 / 2
amp 1 1 0 -1 0 0 / 2
alike yes
end
"
            .as_slice()
    );
    Ok(())
}
