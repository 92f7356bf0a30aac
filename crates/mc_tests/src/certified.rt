//! Certificates that hold, and false ones.

use crate::documents::{
    FLOW_ONLY, FLOW_ONLY_STUCK, NO_FLOW, NO_FLOW_REFUTER, PATH, PATH_BOUND, PATH_FLOW, SHALLOW,
    THREE_GATES, TWO_CORRECTIONS, TWO_EDGES, TWO_GATES,
};
use crate::served::{Due, check, check_rows, served, spelled};
use mc_top::Status;
use std::test::Fail;

#[test]
fn judges_certificates(rt: HostRuntime) -> Result<(), Fail> {
    let rows = [
        ("check", [NO_FLOW, NO_FLOW_REFUTER], Due::Done("yes", "")),
        (
            "check",
            [
                NO_FLOW,
                "noflow 1 ; y a1 : a1 a2 ; y a2 : a1 a2 a3 ; y a3 : a1 a2 a3 ; end",
            ],
            Due::No("no row 1 rule 5", ""),
        ),
        ("check", [PATH, PATH_FLOW], Due::Done("yes", "")),
        (
            "check",
            [
                PATH,
                "flow 1 ; depth 3 ; g 1 c : d ; g 2 b : c ; g 2 a : b d ; end",
            ],
            Due::No("no row 3 rule 6", ""),
        ),
        (
            "check",
            [
                PATH,
                "flow 1 ; depth 3 ; g 1 c : a ; g 2 b : c ; g 3 a : b d ; end",
            ],
            Due::No("no row 1 rule 3", ""),
        ),
        (
            "check",
            [
                PATH,
                "flow 1 ; depth 3 ; g 1 c : c d ; g 2 b : c ; g 3 a : b d ; end",
            ],
            Due::No("no row 1 rule 4", ""),
        ),
        ("check", [FLOW_ONLY, FLOW_ONLY_STUCK], Due::Done("yes", "")),
        (
            "check",
            [
                PATH,
                "flow 1 ; depth 3 ; g 1 d : c ; g 2 b : c ; g 3 a : b d ; end",
            ],
            Due::No("no row 1 rule 1", ""),
        ),
        (
            "check",
            [
                PATH,
                "flow 1 ; depth 2 ; g 1 c : d ; g 2 b : c ; g 3 a : b d ; end",
            ],
            Due::No("no row 3 rule 2", ""),
        ),
        (
            "check",
            [
                PATH,
                "flow 1 ; depth 3 ; g 1 c : ; g 2 b : c ; g 3 a : b d ; end",
            ],
            Due::No("no row 1 rule 5", ""),
        ),
        (
            "check",
            [
                FLOW_ONLY,
                "flow 1 ; depth 1 ; g 1 a1 : b1 ; g 1 a2 : b1 b2 b3 ; g 1 a3 : b1 b2 ; end",
            ],
            Due::No("no row 1 rule 7", ""),
        ),
        (
            "check",
            [PATH, "flow 1 ; depth 3 ; g 1 c : d ; g 2 b : c ; end"],
            Due::No("no row 3 rule 8", ""),
        ),
        (
            "check",
            [
                PATH,
                "flow 1 ; depth 4 ; g 1 c : d ; g 2 b : c ; g 3 a : b d ; end",
            ],
            Due::No("no row 4 rule 9", ""),
        ),
        (
            "check",
            [NO_FLOW, "noflow 1 ; end"],
            Due::No("no row 1 rule 1", ""),
        ),
        (
            "check",
            [
                NO_FLOW,
                "noflow 1 ; y b1 : b1 ; y a2 : a1 a2 a3 ; y a3 : a1 a2 a3 ; end",
            ],
            Due::No("no row 1 rule 2", ""),
        ),
        (
            "check",
            [
                NO_FLOW,
                "noflow 1 ; y a1 : a2 a3 ; y a2 : a1 a2 a3 ; y a3 : a1 a2 a3 ; end",
            ],
            Due::No("no row 1 rule 3", ""),
        ),
        (
            "check",
            [
                NO_FLOW,
                "noflow 1 ; y a1 : a1 a2 a3 ; y a2 : a1 a2 a3 ; end",
            ],
            Due::No("no row 1 rule 4", ""),
        ),
        (
            "check",
            [FLOW_ONLY, "nocausal 1 ; b ; end"],
            Due::No("no row 1 rule 1", ""),
        ),
        (
            "check",
            [FLOW_ONLY, "nocausal 1 ; b b1 ; end"],
            Due::No("no row 1 rule 2", ""),
        ),
        (
            "check",
            [FLOW_ONLY, "nocausal 1 ; b a1 a2 ; end"],
            Due::No("no row 1 rule 3", ""),
        ),
        (
            "check",
            [
                TWO_CORRECTIONS,
                "trace 1 ; u 5 xe ; u 4 swap ; u 7 swap ; u 6 xm ; u 7 xz ; end",
            ],
            Due::Done("yes", ""),
        ),
        (
            "check",
            [
                TWO_CORRECTIONS,
                "trace 1 ; u 5 xe ; u 4 swap ; u 7 swap ; u 6 xm ; end",
            ],
            Due::No("no row 5 rule 4", ""),
        ),
        (
            "check",
            [
                TWO_CORRECTIONS,
                "trace 1 ; u 5 ze ; u 5 xe ; u 4 swap ; u 7 swap ; u 6 xm ; u 7 xz ; end",
            ],
            Due::No("no row 1 rule 2", ""),
        ),
        (
            "check",
            [
                TWO_CORRECTIONS,
                "trace 1 ; u 5 ze ; u 4 swap ; u 7 swap ; u 6 xm ; u 7 xz ; end",
            ],
            Due::No("no row 1 rule 2", ""),
        ),
        (
            "check",
            [TWO_EDGES, "trace 1 ; u 1 cancel ; end"],
            Due::Done("yes", ""),
        ),
        ("check", [PATH, PATH_BOUND], Due::Done("yes", "")),
        (
            "check",
            [
                PATH,
                "least 1 ; depth 3 ; l 1 c ; l 2 b ; l 3 a ; y 1 a : a ; y 1 b : b c ; \
                 y 2 a : a ; end",
            ],
            Due::No("no row 5 rule 9", ""),
        ),
        (
            "check",
            [
                PATH,
                "least 1 ; depth 3 ; l 1 c ; l 2 b ; l 3 a ; y 1 a : a ; y 1 b : b ; end",
            ],
            Due::No("no row 6 rule 10", ""),
        ),
    ];
    check_rows(&rt, rt.alloc(), rows.as_slice())
}

/// What `trace` prints for each circuit holds.
#[test]
fn traces_hold(rt: HostRuntime) -> Result<(), Fail> {
    let alloc = rt.alloc();
    for circuit in [TWO_GATES, THREE_GATES, SHALLOW] {
        let (status, traced) = served(alloc, "trace", spelled(alloc, [circuit, ""])?.as_slice())?;
        assert_eq!(&rt; status, Status::Done);
        check(&rt, alloc, "check", traced.as_slice(), Due::Done("yes", ""))?;
    }
    Ok(())
}
