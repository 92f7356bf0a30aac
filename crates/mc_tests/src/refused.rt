//! A document for each fault that there is.

use crate::served::{Due, check_rows};
use std::test::Fail;

#[test]
fn refuses_each_fault(rt: HostRuntime) -> Result<(), Fail> {
    let rows = [
        (
            "print",
            ["circuit 1 ; in \u{e4} ; out \u{e4} ; end", ""],
            Due::Refused(2, 2, 4),
        ),
        ("print", ["circus 1", ""], Due::Refused(3, 1, 1)),
        (
            "translate",
            ["pattern 1 ; in a ; out a ; end", ""],
            Due::Refused(4, 1, 1),
        ),
        (
            "print",
            ["circuit 01 ; in a ; out a ; end", ""],
            Due::Refused(5, 1, 9),
        ),
        (
            "print",
            ["circuit 1 ; plus a ; out a ; end", ""],
            Due::Refused(6, 2, 1),
        ),
        (
            "print",
            ["circuit 1 ; in a ; j a ; out a ; end", ""],
            Due::Refused(7, 3, 4),
        ),
        (
            "print",
            ["circuit 1 ; in a ; j a 0 0 ; out a ; end", ""],
            Due::Refused(8, 3, 7),
        ),
        (
            "print",
            ["circuit 1 ; in a-b ; out a-b ; end", ""],
            Due::Refused(9, 2, 4),
        ),
        (
            "print",
            ["circuit 1 ; in a ; j a pi ; out a ; end", ""],
            Due::Refused(10, 3, 5),
        ),
        (
            "print",
            ["graph 1 ; in ; out ; end", "flow 1 ; depth x ; end"],
            Due::Refused(11, 6, 7),
        ),
        (
            "print",
            ["circuit 1 ; in a a ; out a ; end", ""],
            Due::Refused(12, 2, 6),
        ),
        (
            "print",
            ["circuit 1 ; in a ; j b 0 ; out a ; end", ""],
            Due::Refused(13, 3, 3),
        ),
        (
            "print",
            ["pattern 1 ; in a b ; m a 0 ; e a b ; out b ; end", ""],
            Due::Refused(14, 4, 3),
        ),
        (
            "print",
            ["circuit 1 ; in a ; cz a a ; out a ; end", ""],
            Due::Refused(15, 3, 6),
        ),
        (
            "print",
            ["graph 1 ; in a b ; e a b ; e b a ; out a b ; end", ""],
            Due::Refused(16, 4, 5),
        ),
        (
            "print",
            ["pattern 1 ; in a b ; m a 0 s: b ; m b 0 ; out ; end", ""],
            Due::Refused(17, 3, 10),
        ),
        (
            "print",
            ["circuit 1 ; in a b ; out a a ; end", ""],
            Due::Refused(18, 3, 7),
        ),
        (
            "print",
            ["circuit 1 ; in a b ; out a ; end", ""],
            Due::Refused(19, 3, 6),
        ),
        (
            "print",
            ["circuit 1 ; in a ; out a", ""],
            Due::Refused(20, 4, 1),
        ),
        (
            "print",
            ["circuit 1 ; in a ; out a ; end", "circuit 1"],
            Due::Refused(21, 5, 1),
        ),
        (
            "print",
            ["pattern 1 ; in a ; out a ; end", "graph 1"],
            Due::Refused(21, 5, 1),
        ),
        (
            "print",
            ["pattern 1 ; in a ; m a 0 ; out ; end", "change 1 ; end"],
            Due::Refused(22, 7, 1),
        ),
        (
            "print",
            [
                "graph 1 ; in a ; m a 0 ; out ; end",
                "noflow 1 ; y a : a ; y a : a ; end",
            ],
            Due::Refused(23, 8, 3),
        ),
        (
            "check",
            ["graph 1 ; in ; out ; end", ""],
            Due::Refused(24, 5, 1),
        ),
        (
            "run 11",
            ["pattern 1 ; in a ; m a 0 ; out ; end", ""],
            Due::Refused(25, 1, 1),
        ),
        (
            "print",
            ["graph 2 ; in a ; out a ; x a ; x a ; end", ""],
            Due::Refused(26, 5, 3),
        ),
        (
            "chain",
            [
                "pattern 1 ; in ; out ; end",
                "pattern 1 ; in a ; out a ; end",
            ],
            Due::Refused(27, 5, 1),
        ),
        (
            "beside",
            [
                "pattern 1 ; in ; out ; end",
                "pattern 1 turn 16 ; in ; out ; end",
            ],
            Due::Refused(28, 5, 16),
        ),
        (
            "chain",
            ["pattern 1 ; in ; out ; end", ""],
            Due::Refused(24, 5, 1),
        ),
        (
            "check",
            ["pattern 1 ; in ; out ; end", ""],
            Due::Refused(24, 5, 1),
        ),
        (
            "check",
            ["pattern 1 ; in ; out ; end", "change 1 ; end"],
            Due::Refused(21, 5, 1),
        ),
        (
            "chain",
            ["pattern 1 ; in ; out ; end", "trace 1 ; end"],
            Due::Refused(21, 5, 1),
        ),
        (
            "print",
            ["pattern 1 ; in ; out ; end", "pattern 1"],
            Due::Refused(21, 5, 1),
        ),
        (
            "print",
            ["pattern 1 ; in ; out ; end", "trace 1 ; u 1 xx ; end"],
            Due::Refused(6, 6, 5),
        ),
        (
            "print",
            ["pattern 2 ; in a b ; x a ! ! ; out a b ; end", ""],
            Due::Refused(18, 3, 7),
        ),
        (
            "print",
            ["pattern 2 ; in a b ; x ! ; out a b ; end", ""],
            Due::Refused(9, 3, 3),
        ),
        (
            "print",
            ["pattern 2 ; in a b ; m a 0 ! ; out b ; end", ""],
            Due::Refused(6, 3, 7),
        ),
        (
            "print",
            ["circuit 1 turn 016 ; in ; out ; end", ""],
            Due::Refused(11, 1, 16),
        ),
        (
            "print",
            ["circuit 1 turns 16 ; in ; out ; end", ""],
            Due::Refused(8, 1, 11),
        ),
        (
            "print",
            ["circuit 1 turn ; in ; out ; end", ""],
            Due::Refused(7, 1, 15),
        ),
        (
            "print",
            ["circuit 1 turn 16 1 ; in ; out ; end", ""],
            Due::Refused(8, 1, 19),
        ),
        (
            "print",
            ["gates 1 ; in a b ; ccx a b a ; out a b ; end", ""],
            Due::Refused(15, 3, 9),
        ),
    ];
    check_rows(&rt, rt.alloc(), rows.as_slice())
}
