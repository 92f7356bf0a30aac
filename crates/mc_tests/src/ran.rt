//! Runs.

use crate::documents::{
    GATE, GATE_PATTERN, PAIR, SIXTEENTH, TOFFOLI, UNCORRECTED, WILD, WILD_STANDARD,
};
use crate::served::{Due, check_rows, served, spelled};
use mc_top::Status;
use std::alloc::Global;
use std::test::Fail;

#[test]
fn runs_documents(rt: HostRuntime) -> Result<(), Fail> {
    let rows = [
        (
            "run 1",
            [WILD, ""],
            Due::Done(
                "table 1 ; branch 1 ; amp 0 00 0 0 0 0 / 0 ; amp 1 00 1 0 0 0 / 1 ; \
                 amp 0 01 -1 0 0 0 / 1 ; amp 1 01 0 0 0 0 / 0 ; amp 0 10 0 0 0 0 / 0 ; \
                 amp 1 10 -1 0 0 0 / 1 ; amp 0 11 1 0 0 0 / 1 ; amp 1 11 0 0 0 0 / 0 ; end",
                "",
            ),
        ),
        (
            "run 1",
            [WILD_STANDARD, ""],
            Due::Done(
                "table 1 ; branch 1 ; amp 0 00 0 0 0 0 / 0 ; amp 1 00 -1 0 0 0 / 1 ; \
                 amp 0 01 1 0 0 0 / 1 ; amp 1 01 0 0 0 0 / 0 ; amp 0 10 0 0 0 0 / 0 ; \
                 amp 1 10 1 0 0 0 / 1 ; amp 0 11 -1 0 0 0 / 1 ; amp 1 11 0 0 0 0 / 0 ; end",
                "",
            ),
        ),
        (
            "run",
            [GATE_PATTERN, ""],
            Due::Done(
                "branches 1 ; branch 0 phase 0 ; amp 0 0 1 0 0 0 / 2 ; amp 1 0 1 0 0 0 / 2 ; \
                 amp 0 1 0 1 0 0 / 2 ; amp 1 1 0 -1 0 0 / 2 ; branch 1 phase 0 ; \
                 amp 0 0 1 0 0 0 / 2 ; amp 1 0 1 0 0 0 / 2 ; amp 0 1 0 1 0 0 / 2 ; \
                 amp 1 1 0 -1 0 0 / 2 ; alike yes ; end",
                "",
            ),
        ),
        (
            "run 1",
            [GATE_PATTERN, ""],
            Due::Done(
                "table 1 ; branch 1 ; amp 0 0 1 0 0 0 / 2 ; amp 1 0 1 0 0 0 / 2 ; \
                 amp 0 1 0 1 0 0 / 2 ; amp 1 1 0 -1 0 0 / 2 ; end",
                "",
            ),
        ),
        (
            "run",
            [GATE, ""],
            Due::Done(
                "table 1 ; amp 0 0 1 0 0 0 / 1 ; amp 1 0 1 0 0 0 / 1 ; amp 0 1 0 1 0 0 / 1 ; \
                 amp 1 1 0 -1 0 0 / 1 ; end",
                "",
            ),
        ),
        ("run 11", [GATE_PATTERN, ""], Due::Refused(25, 1, 1)),
        (
            "run",
            [UNCORRECTED, ""],
            Due::Done(
                "branches 1 ; branch 0 phase 0 ; amp 0 0 1 0 0 0 / 2 ; amp 1 0 1 0 0 0 / 2 ; \
                 amp 0 1 0 1 0 0 / 2 ; amp 1 1 0 -1 0 0 / 2 ; branch 1 phase none ; \
                 amp 0 0 1 0 0 0 / 2 ; amp 1 0 1 0 0 0 / 2 ; amp 0 1 0 -1 0 0 / 2 ; \
                 amp 1 1 0 1 0 0 / 2 ; alike no ; end",
                "",
            ),
        ),
        (
            "run",
            [PAIR, ""],
            Due::Done(
                "branches 1 ; branch - phase 0 ; amp 00 0 1 0 0 0 / 1 ; amp 01 0 1 0 0 0 / 1 ; \
                 amp 10 0 0 0 0 0 / 0 ; amp 11 0 0 0 0 0 / 0 ; amp 00 1 0 0 0 0 / 0 ; \
                 amp 01 1 0 0 0 0 / 0 ; amp 10 1 1 0 0 0 / 1 ; amp 11 1 -1 0 0 0 / 1 ; \
                 alike yes ; end",
                "",
            ),
        ),
        (
            "run",
            [SIXTEENTH, ""],
            Due::Done(
                "table 1 ; amp 0 0 1 0 0 0 0 0 0 0 / 1 ; amp 1 0 1 0 0 0 0 0 0 0 / 1 ; \
                 amp 0 1 0 1 0 0 0 0 0 0 / 1 ; amp 1 1 0 -1 0 0 0 0 0 0 / 1 ; end",
                "",
            ),
        ),
    ];
    check_rows(&rt, rt.alloc(), rows.as_slice())
}

fn add_bits(text: &mut Vec<u8>, n: u8) -> Result<(), Fail> {
    text.push(b' ')?;
    for mask in [4, 2, 1].iter() {
        text.push(if n & *mask != 0 { b'1' } else { b'0' })?;
    }
    Ok(())
}

/// The table of the gate: 64 amplitudes, each 1 or 0.
fn toffoli_table(alloc: Global) -> Result<Vec<u8>, Fail> {
    let mut text = Vec::from_slice(alloc, b"table 1\n")?;
    for input in 0..8 {
        let flipped = if input & 6 == 6 { input ^ 1 } else { input };
        for output in 0..8 {
            text.extend_from_slice(b"amp")?;
            add_bits(&mut text, output)?;
            add_bits(&mut text, input)?;
            text.push(b' ')?;
            text.push(if output == flipped { b'1' } else { b'0' })?;
            text.extend_from_slice(b" 0 0 0 / 0\n")?;
        }
    }
    text.extend_from_slice(b"end\n")?;
    Ok(text)
}

#[test]
fn runs_the_toffoli_network(rt: HostRuntime) -> Result<(), Fail> {
    let alloc = rt.alloc();
    let due = toffoli_table(alloc)?;
    let (status, answer) = served(alloc, "run", spelled(alloc, [TOFFOLI, ""])?.as_slice())?;
    assert_eq!(&rt; status, Status::Done);
    assert_eq!(&rt; answer.as_slice(), due.as_slice());
    Ok(())
}
