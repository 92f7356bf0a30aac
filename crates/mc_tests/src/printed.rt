//! Documents in canonical spelling.

use crate::documents::{ALWAYS_X, SHIFTED, SHIFTED_CHANGE, X_GATE};
use crate::served::{Due, check_rows};
use std::test::Fail;

#[test]
fn prints_documents(rt: HostRuntime) -> Result<(), Fail> {
    let rows = [
        (
            "print",
            ["pattern 1 ; in a b ; m a 0 s: b ; m b 0 ; out ; end", ""],
            Due::Refused(17, 3, 10),
        ),
        (
            "print",
            [SHIFTED, SHIFTED_CHANGE],
            Due::Done(SHIFTED, SHIFTED_CHANGE),
        ),
        (
            "print",
            [SHIFTED, "change 1 ; o a ; o q1 ; end"],
            Due::Refused(22, 19, 1),
        ),
        (
            "print",
            [
                "graph 1 ; in a ; n b ; e a b ; e b a ; m a 0 ; out b ; end",
                "",
            ],
            Due::Refused(16, 5, 5),
        ),
        (
            "print",
            [
                "circuit 1 ; in nnnnnnnnnnnnnnnn ; out nnnnnnnnnnnnnnnn ; end",
                "",
            ],
            Due::Done(
                "circuit 1 ; in nnnnnnnnnnnnnnnn ; out nnnnnnnnnnnnnnnn ; end",
                "",
            ),
        ),
        (
            "print",
            [
                "circuit 1 ; in nnnnnnnnnnnnnnnnn ; out nnnnnnnnnnnnnnnnn ; end",
                "",
            ],
            Due::Refused(9, 2, 4),
        ),
        ("print", [ALWAYS_X, ""], Due::Done(ALWAYS_X, "")),
        (
            "print",
            ["pattern 1 ; in a ; x a ! ; out a ; end", ""],
            Due::Refused(9, 3, 5),
        ),
        (
            "print",
            ["circuit 1 turn 12 ; in ; out ; end", ""],
            Due::Refused(11, 1, 16),
        ),
        ("print", [X_GATE, ""], Due::Done(X_GATE, "")),
    ];
    check_rows(&rt, rt.alloc(), rows.as_slice())
}
