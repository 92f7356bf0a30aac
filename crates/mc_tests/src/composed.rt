//! Two patterns put together, and lowered lists of gates.

use crate::documents::{GATE_PATTERN, NOTHING, ONE_QUBIT, TOFFOLI, X_GATE};
use crate::served::{Due, check_rows};
use std::test::Fail;

#[test]
fn chains_patterns(rt: HostRuntime) -> Result<(), Fail> {
    let rows = [
        (
            "chain",
            [GATE_PATTERN, GATE_PATTERN],
            Due::Done(
                "pattern 1 ; in a ; n q1 ; e a q1 ; m a 7 ; x q1 a ; n q2 ; e q1 q2 ; m q1 7 ; \
                 x q2 q1 ; out q2 ; end",
                "",
            ),
        ),
        (
            "chain",
            [
                "pattern 1 turn 16 ; in a ; out a ; end",
                "pattern 1 ; in b ; x b ; out b ; end",
            ],
            Due::Done("pattern 1 turn 16 ; in a ; x a ; out a ; end", ""),
        ),
        ("chain", [NOTHING, GATE_PATTERN], Due::Refused(27, 5, 1)),
    ];
    check_rows(&rt, rt.alloc(), rows.as_slice())
}

#[test]
fn puts_patterns_beside(rt: HostRuntime) -> Result<(), Fail> {
    let rows = [(
        "beside",
        [ONE_QUBIT, ONE_QUBIT],
        Due::Done("pattern 1 ; in a q1 ; out a q1 ; end", ""),
    )];
    check_rows(&rt, rt.alloc(), rows.as_slice())
}

#[test]
fn lowers_gates(rt: HostRuntime) -> Result<(), Fail> {
    let rows = [
        (
            "lower",
            [X_GATE, ""],
            Due::Done("circuit 1 ; in a ; j a 0 ; j a 4 ; out a ; end", ""),
        ),
        (
            "lower",
            ["gates 1 ; in a b ; swap a b ; h a ; out a b ; end", ""],
            Due::Done("circuit 1 ; in a b ; j b 0 ; out b a ; end", ""),
        ),
        (
            "lower",
            ["gates 1 ; in a b c ; ccx a b c ; out a b c ; end", ""],
            Due::Done(TOFFOLI, ""),
        ),
    ];
    check_rows(&rt, rt.alloc(), rows.as_slice())
}
