//! Standard and shifted forms.

use crate::documents::{
    CONSTANT, SHALLOW, SHIFTED, SHIFTED_CHANGE, THREE_GATES, TWICE_CZ, TWO_GATES, WILD,
    WILD_STANDARD,
};
use crate::served::{Due, check_rows};
use std::test::Fail;

#[test]
fn prints_standard_forms(rt: HostRuntime) -> Result<(), Fail> {
    let rows = [
        (
            "standard",
            [TWICE_CZ, ""],
            Due::Done("pattern 1 ; in a b ; out a b ; end", ""),
        ),
        (
            "standard",
            [TWO_GATES, ""],
            Due::Done(
                "pattern 1 ; in a ; n q1 ; n q2 ; e a q1 ; e q1 q2 ; m a 7 ; m q1 6 s: a ; \
                 x q2 q1 ; z q2 a ; out q2 ; end",
                "",
            ),
        ),
        ("standard", [WILD, ""], Due::Done(WILD_STANDARD, "")),
        (
            "standard",
            [WILD_STANDARD, ""],
            Due::Done(WILD_STANDARD, ""),
        ),
        (
            "standard",
            [THREE_GATES, ""],
            Due::Done(
                "pattern 1 ; in a ; n q1 ; n q2 ; n q3 ; e a q1 ; e q1 q2 ; e q2 q3 ; m a 7 ; \
                 m q1 6 s: a ; m q2 5 s: q1 t: a ; x q3 q2 ; z q3 q1 ; out q3 ; end",
                "",
            ),
        ),
        (
            "standard",
            [CONSTANT, ""],
            Due::Done(
                "pattern 2 ; in a ; n b ; e a b ; m a 1 s: ! ; x b a ; z b ! ; out b ; end",
                "",
            ),
        ),
    ];
    check_rows(&rt, rt.alloc(), rows.as_slice())
}

#[test]
fn prints_shifted_forms(rt: HostRuntime) -> Result<(), Fail> {
    let rows = [
        (
            "shift",
            [THREE_GATES, ""],
            Due::Done(SHIFTED, SHIFTED_CHANGE),
        ),
        (
            "shift",
            [SHALLOW, ""],
            Due::Done(
                "pattern 1 ; in a ; n r ; n q1 ; n q2 ; e a r ; e a q1 ; e q1 q2 ; m a 7 ; \
                 m q1 7 s: a ; x q2 q1 ; z q2 a ; out q2 r ; end",
                "change 1 ; o a ; o q1 ; end",
            ),
        ),
        (
            "shift",
            [
                "pattern 2 ; in a ; n b ; e a b ; m a 0 t: ! ; x b a ; out b ; end",
                "",
            ],
            Due::Done(
                "pattern 2 ; in a ; n b ; e a b ; m a 0 ; x b a ! ; out b ; end",
                "change 2 ; o a ! ; end",
            ),
        ),
    ];
    check_rows(&rt, rt.alloc(), rows.as_slice())
}
