//! What the calls below the command say of the same documents.

use crate::documents::{THREE_GATES, TOFFOLI, TWO_GATES, WILD, WILD_STANDARD};
use crate::served::{Due, check, spelled};
use mc_cyclo::{Cyclo, phase_between};
use mc_pattern::{Command, Pattern};
use mc_run::run_branch;
use mc_signal::{Outcomes, Signal};
use mc_standard::{Rewriter, standardise};
use mc_top::{Document, Takes, read_document};
use mc_translate::translate;
use std::alloc::Global;
use std::process::Abort;
use std::test::Fail;

fn is_same_signal(one: &Signal, other: &Signal) -> bool {
    let mut same = one.constant() == other.constant()
        && one.members().len() == other.members().len();
    for i in 0..one.members().len() {
        same &= other.has(one.members().get(i));
    }
    same
}

fn is_same(one: &Command<4>, other: &Command<4>) -> bool {
    match (one, other) {
        (Command::Prep(q), Command::Prep(r)) => *q == *r,
        (Command::Ent(i, j), Command::Ent(q, r)) => *i == *q && *j == *r,
        (
            Command::Meas { q, angle, s, t },
            Command::Meas {
                q: r,
                angle: by,
                s: u,
                t: v,
            },
        ) => *q == *r
            && angle.steps() == by.steps()
            && is_same_signal(s, u)
            && is_same_signal(t, v),
        (Command::FixX { q, s }, Command::FixX { q: r, s: t }) => *q == *r && is_same_signal(s, t),
        (Command::FixZ { q, s }, Command::FixZ { q: r, s: t }) => *q == *r && is_same_signal(s, t),
        _ => false,
    }
}

fn translated(rt: &impl Abort, alloc: Global, text: &'static str) -> Result<Pattern<4>, Fail> {
    let text = spelled(alloc, [text, ""])?;
    assert!(rt; text.len() < 1000);
    let document = read_document::<4>(alloc, text.as_slice(), Takes::circuits())?;
    match document {
        Document::Circuit(circuit) => Ok(translate(alloc, &circuit)?),
        _ => panic!(rt; "a document that is no circuit"),
    }
}

/// Stepping a rewriter to its end leaves the commands of the standard form that one pass makes.
fn check_steps(rt: &impl Abort, alloc: Global, text: &'static str) -> Result<(), Fail> {
    let pattern = translated(rt, alloc, text)?;
    let mut rewriter = Rewriter::new(alloc, &pattern)?;
    for _ in 0..4096 {
        if rewriter.step()?.is_none() {
            break;
        }
    }
    let standard = standardise(alloc, &pattern)?.as_pattern()?;
    let (stepped, passed) = (rewriter.commands(), standard.commands());
    assert_eq!(rt; stepped.len(), passed.len());
    for (one, other) in stepped.iter().zip(passed) {
        assert!(rt; is_same(one, other));
    }
    Ok(())
}

#[test]
fn steps_lead_to_the_standard_form(rt: HostRuntime) -> Result<(), Fail> {
    let alloc = rt.alloc();
    check_steps(&rt, alloc, TWO_GATES)?;
    check_steps(&rt, alloc, THREE_GATES)?;
    check_steps(&rt, alloc, TOFFOLI)
}

/// The pattern that a text spells.
fn pattern_of(rt: &impl Abort, alloc: Global, text: &'static str) -> Result<Pattern<4>, Fail> {
    let text = spelled(alloc, [text, ""])?;
    assert!(rt; text.len() < 1000);
    match read_document(alloc, text.as_slice(), Takes::circuits_and_patterns())? {
        Document::Pattern(pattern, _) => Ok(pattern),
        _ => panic!(rt; "a document that is no pattern"),
    }
}

/// The amplitudes of the branch in which the one qubit that is measured, the first of two, has outcome 1.
fn amplitudes(alloc: Global, pattern: &Pattern<4>) -> Result<Vec<Cyclo<4>>, Fail> {
    let mut found = Vec::new(alloc);
    if pattern.names().len() == 2 {
        let mut outcomes = Outcomes::new(alloc, 2)?;
        outcomes.set(0, true);
        let table = run_branch(alloc, pattern, &outcomes)?;
        if table.outputs() == 1 && table.inputs() == 2 {
            for b in 0..4 {
                found.push(table.at(0, b))?;
                found.push(table.at(1, b))?;
            }
        }
    }
    Ok(found)
}

#[test]
fn exchanged_corrections_differ_by_a_sign(rt: HostRuntime) -> Result<(), Fail> {
    let alloc = rt.alloc();
    let wild = pattern_of(&rt, alloc, WILD)?;
    let standard = pattern_of(&rt, alloc, WILD_STANDARD)?;
    let first = amplitudes(alloc, &wild)?;
    let second = amplitudes(alloc, &standard)?;
    assert_eq!(&rt; (first.len(), second.len()), (8, 8));
    if first.len() == second.len() {
        assert_eq!(&rt; phase_between(&first, &second), Some(4));
    }
    Ok(())
}
