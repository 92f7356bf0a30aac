//! Translations.

use crate::documents::{GATE, GATE_PATTERN, SIXTEENTH, TWICE_CZ, TWO_EDGES};
use crate::served::{Due, check, check_rows};
use std::test::Fail;

#[test]
fn translates_circuits(rt: HostRuntime) -> Result<(), Fail> {
    let rows = [
        ("translate", [GATE, ""], Due::Done(GATE_PATTERN, "")),
        (
            "translate",
            ["circuit 1 ; in a b ; out b a ; end", ""],
            Due::Done("pattern 1 ; in a b ; out b a ; end", ""),
        ),
        (
            "translate",
            ["circuit 1 ; in q1 ; j q1 0 ; out q1 ; end", ""],
            Due::Done(
                "pattern 1 ; in q1 ; n q2 ; e q1 q2 ; m q1 0 ; x q2 q1 ; out q2 ; end",
                "",
            ),
        ),
        ("translate", [TWICE_CZ, ""], Due::Done(TWO_EDGES, "")),
        ("translate", ["", ""], Due::Refused(3, 1, 1)),
        ("translate x", [GATE, ""], Due::Usage),
        ("translate", [GATE_PATTERN, ""], Due::Refused(4, 1, 1)),
        (
            "translate",
            ["circuit 1 ; in a ; j b 0 ; out a ; end", ""],
            Due::Refused(13, 3, 3),
        ),
        (
            "translate",
            [SIXTEENTH, ""],
            Due::Done(
                "pattern 1 turn 16 ; in a ; n q1 ; e a q1 ; m a 15 ; x q1 a ; out q1 ; end",
                "",
            ),
        ),
    ];
    check_rows(&rt, rt.alloc(), rows.as_slice())
}

/// A text with carriage returns, a comment, tabs, a negative angle, and no line feed at its end.
const UNTIDY: &str = "circuit 1\r\n# note\n\tin  a\nj a -1\nout a\nend";

#[test]
fn translates_untidy_texts(rt: HostRuntime) -> Result<(), Fail> {
    let alloc = rt.alloc();
    let translation = "pattern 1 ; in a ; n q1 ; e a q1 ; m a 1 ; x q1 a ; out q1 ; end";
    check(
        &rt,
        alloc,
        "translate",
        UNTIDY.as_bytes(),
        Due::Done(translation, ""),
    )?;
    let spelling = "circuit 1 ; in a ; j a 7 ; out a ; end";
    check(
        &rt,
        alloc,
        "print",
        UNTIDY.as_bytes(),
        Due::Done(spelling, ""),
    )
}
