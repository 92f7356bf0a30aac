//! Graphs, flows and what is made from them.

use crate::documents::{
    CONSTANT, FLOW_ONLY, FLOW_ONLY_STUCK, LONE, NO_FLOW, NO_FLOW_REFUTER, PAIR, PAIR_PATTERN, PATH,
    PATH_FLOW, SHALLOW, TWO_GATES,
};
use crate::served::{Due, check_rows};
use std::test::Fail;

#[test]
fn prints_graphs(rt: HostRuntime) -> Result<(), Fail> {
    let rows = [
        (
            "graph",
            [TWO_GATES, ""],
            Due::Done(
                "graph 1 ; in a ; n q1 ; n q2 ; e a q1 ; e q1 q2 ; m a 7 ; m q1 6 ; out q2 ; end",
                "",
            ),
        ),
        (
            "graph",
            [CONSTANT, ""],
            Due::Done(
                "graph 2 ; in a ; n b ; e a b ; m a 7 ; out b ; z b ; end",
                "",
            ),
        ),
    ];
    check_rows(&rt, rt.alloc(), rows.as_slice())
}

#[test]
fn finds_flows(rt: HostRuntime) -> Result<(), Fail> {
    let rows = [
        ("flow", [PATH, ""], Due::Done(PATH, PATH_FLOW)),
        (
            "flow",
            [FLOW_ONLY, ""],
            Due::Done(
                FLOW_ONLY,
                "flow 1 ; depth 1 ; g 1 a1 : b1 b3 ; g 1 a2 : b1 b2 b3 ; g 1 a3 : b1 b2 ; end",
            ),
        ),
        ("flow", [NO_FLOW, ""], Due::No(NO_FLOW, NO_FLOW_REFUTER)),
        (
            "flow",
            [LONE, ""],
            Due::No(LONE, "noflow 1 ; y v : v ; end"),
        ),
        (
            "flow",
            [PAIR, ""],
            Due::Done(PAIR, "flow 1 ; depth 0 ; end"),
        ),
    ];
    check_rows(&rt, rt.alloc(), rows.as_slice())
}

#[test]
fn makes_patterns(rt: HostRuntime) -> Result<(), Fail> {
    let rows = [
        (
            "make",
            [PATH, ""],
            Due::Done(
                "pattern 1 ; in a ; n b ; n c ; n d ; e a b ; e b c ; e c d ; m a 0 ; x b a ; \
                 x d a ; m b 0 ; x c b ; z d b ; m c 0 ; x d c ; out d ; end",
                "",
            ),
        ),
        ("make", [PAIR, ""], Due::Done(PAIR_PATTERN, "")),
        (
            "make",
            [CONSTANT, ""],
            Due::Done(
                "pattern 2 ; in a ; n b ; e a b ; m a 7 ; x b a ; z b ! ; out b ; end",
                "",
            ),
        ),
    ];
    check_rows(&rt, rt.alloc(), rows.as_slice())
}

#[test]
fn extracts_circuits(rt: HostRuntime) -> Result<(), Fail> {
    let rows = [
        (
            "extract",
            [PATH, ""],
            Due::Done("circuit 1 ; in a ; j a 0 ; j a 0 ; j a 0 ; out a ; end", ""),
        ),
        (
            "extract",
            [FLOW_ONLY, ""],
            Due::No(FLOW_ONLY, FLOW_ONLY_STUCK),
        ),
        (
            "extract",
            [SHALLOW, ""],
            Due::Done(
                "circuit 1 ; in a ; plus q1 ; cz a q1 ; j a 1 ; j q1 1 ; out q1 a ; end",
                "",
            ),
        ),
        (
            "extract",
            [PAIR, ""],
            Due::Done("circuit 1 ; in a ; plus b ; cz a b ; out a b ; end", ""),
        ),
        (
            "extract",
            [CONSTANT, ""],
            Due::Done("circuit 1 ; in a ; j a 1 ; j a 4 ; j a 0 ; out a ; end", ""),
        ),
    ];
    check_rows(&rt, rt.alloc(), rows.as_slice())
}
