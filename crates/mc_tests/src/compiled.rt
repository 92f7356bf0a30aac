//! Compiled circuits and samples.

use crate::documents::{GATE_PATTERN, SHALLOW};
use crate::served::{Due, check_rows};
use std::test::Fail;

#[test]
fn compiles_circuits(rt: HostRuntime) -> Result<(), Fail> {
    let rows = [
        (
            "sample 1",
            ["", ""],
            Due::Done(
                "qubits 9 ; edges 2 ; depth 1 ; commands 10 ; bytes 121 ; sum 8269",
                "",
            ),
        ),
        (
            "compile",
            [
                "circuit 1 ; in w0 w1 w2 w3 ; plus w4 w5 w6 w7 ; j w6 0 ; cz w6 w3 ; \
                 out w0 w1 w2 w3 w4 w5 w6 w7 ; end",
                "",
            ],
            Due::Done(
                "pattern 1 ; in w0 w1 w2 w3 ; n w4 ; n w5 ; n w6 ; n w7 ; n q1 ; e w3 q1 ; \
                 e w6 q1 ; m w6 0 ; z w3 w6 ; x q1 w6 ; out w0 w1 w2 w3 w4 w5 q1 w7 ; end",
                "",
            ),
        ),
        ("sample 0", ["", ""], Due::Usage),
        (
            "compile",
            [SHALLOW, ""],
            Due::Done(
                "pattern 1 ; in a ; n r ; n q1 ; n q2 ; e a r ; e a q1 ; e q1 q2 ; m a 7 ; \
                 m q1 7 ; x r a ; x q2 q1 ; out q2 r ; end",
                "",
            ),
        ),
        ("compile", [GATE_PATTERN, ""], Due::Refused(4, 1, 1)),
    ];
    check_rows(&rt, rt.alloc(), rows.as_slice())
}
