//! Bounds of depth.

use crate::documents::{NO_FLOW, NO_FLOW_REFUTER, PAIR, PATH, PATH_BOUND};
use crate::served::{Due, check_rows};
use std::test::Fail;

#[test]
fn bounds_depths(rt: HostRuntime) -> Result<(), Fail> {
    let rows = [
        ("least", [PATH, ""], Due::Done(PATH, PATH_BOUND)),
        (
            "least",
            [PAIR, ""],
            Due::Done(PAIR, "least 1 ; depth 0 ; end"),
        ),
        ("least", [NO_FLOW, ""], Due::No(NO_FLOW, NO_FLOW_REFUTER)),
    ];
    check_rows(&rt, rt.alloc(), rows.as_slice())
}
