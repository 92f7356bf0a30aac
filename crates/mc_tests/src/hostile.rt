//! Reads and writes that fail, and documents that are cut.

use crate::documents::{
    GATE, GATE_PATTERN, NO_FLOW, NO_FLOW_REFUTER, SHIFTED, SHIFTED_CHANGE, THREE_GATES,
};
use crate::served::{Due, Sections, check, listed, spelled};
use mc_io::{HonestSink, HonestSource, MemSink, MemSource};
use mc_top::{Status, serve};
use std::alloc::Global;
use std::process::Abort;
use std::test::Fail;

/// Words, the text that comes in, and the answer that goes out: a translation, a shifted form, a certificate.
type Served = (&'static str, Sections, Sections);

const SERVED: [Served; 3] = [
    ("translate", [GATE, ""], [GATE_PATTERN, ""]),
    ("shift", [THREE_GATES, ""], [SHIFTED, SHIFTED_CHANGE]),
    ("flow", [NO_FLOW, ""], [NO_FLOW, NO_FLOW_REFUTER]),
];

/// How many bytes a call takes.
const PIECE: u32 = 7;

/// A number of bytes, by which calls are numbered.
fn small(bytes: usize) -> Result<u32, Fail> {
    match u32::try_from(bytes) {
        Ok(bytes) => Ok(bytes),
        Err(_) => Err(Fail::from("a text that is too long")),
    }
}

/// Serves a row over a source whose read of this number fails, and compares the status.
fn fail_read(
    rt: &impl Abort,
    alloc: Global,
    row: &Served,
    call: u32,
    due: Status,
) -> Result<(), Fail> {
    let words = listed(alloc, row.0)?;
    let failing = Vec::from_slice(alloc, &[call])?;
    let mut source = MemSource::new(spelled(alloc, row.1)?, PIECE as usize, failing);
    let mut out = HonestSink::new(alloc, 4096)?;
    let mut note = HonestSink::new(alloc, 96)?;
    let status = serve(alloc, words.as_slice(), &mut source, &mut out, &mut note);
    assert_eq!(rt; status, due);
    if due == Status::ReadFault {
        assert_eq!(rt; out.bytes(), b"".as_slice());
        assert_eq!(rt; note.bytes(), b"mcalc: read fault\n".as_slice());
    }
    Ok(())
}

/// Each read of a row fails in turn; then none that is made.
fn fail_reads(rt: &impl Abort, alloc: Global, row: &Served, done: Status) -> Result<(), Fail> {
    let reads = small(spelled(alloc, row.1)?.len())? / PIECE + 1;
    for call in 0..reads {
        fail_read(rt, alloc, row, call, Status::ReadFault)?;
    }
    fail_read(rt, alloc, row, reads + 1, done)
}

#[test]
fn tells_failed_reads(rt: HostRuntime) -> Result<(), Fail> {
    let [gate, gates, graph] = SERVED;
    fail_reads(&rt, rt.alloc(), &gate, Status::Done)?;
    fail_reads(&rt, rt.alloc(), &gates, Status::Done)?;
    fail_reads(&rt, rt.alloc(), &graph, Status::No)
}

/// Serves a row into a sink whose write of this number fails: what was written before it is the answer's start.
fn fail_write(rt: &impl Abort, alloc: Global, row: &Served, call: u32) -> Result<(), Fail> {
    let words = listed(alloc, row.0)?;
    let answer = spelled(alloc, row.2)?;
    let mut source = HonestSource::new(spelled(alloc, row.1)?);
    let failing = Vec::from_slice(alloc, &[call])?;
    let mut out = MemSink::new(alloc, answer.len(), PIECE as usize, failing)?;
    let mut note = HonestSink::new(alloc, 96)?;
    let status = serve(alloc, words.as_slice(), &mut source, &mut out, &mut note);
    assert_eq!(rt; status, Status::WriteFault);
    assert_eq!(rt; out.bytes().len(), PIECE.wrapping_mul(call) as usize);
    assert!(rt; answer.as_slice().starts_with(out.bytes()));
    assert_eq!(rt; note.bytes(), b"".as_slice());
    Ok(())
}

#[test]
fn tells_failed_writes(rt: HostRuntime) -> Result<(), Fail> {
    for row in SERVED.as_slice() {
        let bytes = small(spelled(rt.alloc(), row.2)?.len())?;
        for call in 0..bytes.div_ceil(PIECE) {
            fail_write(&rt, rt.alloc(), row, call)?;
        }
    }
    Ok(())
}

/// A sink with room for all but a byte, and a note that is not written.
#[test]
fn keeps_the_status_without_a_note(rt: HostRuntime) -> Result<(), Fail> {
    let alloc = rt.alloc();
    let words = listed(alloc, "translate")?;
    let mut source = HonestSource::new(spelled(alloc, [GATE, ""])?);
    let mut out = MemSink::new(alloc, 50, 10, Vec::new(alloc))?;
    let mut note = MemSink::new(alloc, 96, 10, Vec::from_slice(alloc, &[0])?)?;
    let status = serve(alloc, words.as_slice(), &mut source, &mut out, &mut note);
    assert_eq!(&rt; status, Status::WriteFault);
    assert_eq!(&rt; out.bytes().len(), 50);
    assert_eq!(&rt; note.bytes(), b"".as_slice());
    Ok(())
}

/// From this many bytes on: the code, the line and the column of the refusal, and whether the column goes on with the bytes.
type Cut = (u32, u8, u32, u32, bool);

/// What is due of the first bytes of a document.
fn cut_at(cuts: &[Cut], bytes: u32) -> Due {
    let mut due = Due::Usage;
    for cut in cuts {
        if cut.0 <= bytes {
            let moved = if cut.4 { bytes - cut.0 } else { 0 };
            due = Due::Refused(cut.1, cut.2, cut.3.saturating_add(moved));
        }
    }
    due
}

/// Serves each proper start of a document: only the one that lacks its last line feed alone is whole.
fn check_cuts(
    rt: &impl Abort,
    alloc: Global,
    words: &str,
    row: (Sections, Sections),
    cuts: &[Cut],
) -> Result<(), Fail> {
    let text = spelled(alloc, row.0)?;
    let whole = text.len().saturating_sub(1);
    for bytes in 0..whole {
        check(
            rt,
            alloc,
            words,
            &text[..bytes],
            cut_at(cuts, small(bytes)?),
        )?;
    }
    check(
        rt,
        alloc,
        words,
        &text[..whole],
        Due::Done(row.1[0], row.1[1]),
    )
}

/// The pattern of one gate under `print`.
const PATTERN_CUTS: [Cut; 30] = [
    (0, 3, 1, 1, false),
    (1, 3, 1, 1, false),
    (7, 7, 1, 8, false),
    (9, 20, 1, 10, true),
    (10, 20, 2, 1, false),
    (11, 6, 2, 1, false),
    (12, 20, 2, 3, true),
    (15, 20, 3, 1, false),
    (16, 7, 3, 2, false),
    (18, 20, 3, 4, true),
    (20, 20, 4, 1, false),
    (21, 7, 4, 2, false),
    (23, 7, 4, 4, false),
    (25, 13, 4, 5, false),
    (26, 20, 4, 7, false),
    (27, 20, 5, 1, false),
    (28, 7, 5, 2, false),
    (30, 7, 5, 4, false),
    (32, 20, 5, 6, false),
    (33, 20, 6, 1, false),
    (34, 7, 6, 2, false),
    (36, 13, 6, 3, false),
    (37, 20, 6, 5, true),
    (40, 20, 7, 1, false),
    (41, 6, 7, 1, false),
    (43, 19, 7, 4, false),
    (45, 13, 7, 5, false),
    (46, 20, 7, 7, false),
    (47, 20, 8, 1, false),
    (48, 6, 8, 1, false),
];

/// A graph without a flow, with its refuter, under `check`.
const REFUTED_CUTS: [Cut; 118] = [
    (0, 3, 1, 1, false),
    (1, 3, 1, 1, false),
    (5, 7, 1, 6, false),
    (7, 20, 1, 8, false),
    (8, 20, 2, 1, false),
    (9, 6, 2, 1, false),
    (10, 20, 2, 3, true),
    (20, 20, 3, 1, false),
    (21, 7, 3, 2, false),
    (23, 20, 3, 4, true),
    (25, 20, 4, 1, false),
    (26, 7, 4, 2, false),
    (28, 20, 4, 4, true),
    (30, 20, 5, 1, false),
    (31, 7, 5, 2, false),
    (33, 20, 5, 4, true),
    (35, 20, 6, 1, false),
    (36, 7, 6, 2, false),
    (38, 13, 6, 3, false),
    (39, 7, 6, 5, false),
    (41, 13, 6, 6, false),
    (42, 20, 6, 8, false),
    (43, 20, 7, 1, false),
    (44, 7, 7, 2, false),
    (46, 13, 7, 3, false),
    (47, 7, 7, 5, false),
    (49, 13, 7, 6, false),
    (50, 20, 7, 8, false),
    (51, 20, 8, 1, false),
    (52, 7, 8, 2, false),
    (54, 13, 8, 3, false),
    (55, 7, 8, 5, false),
    (57, 13, 8, 6, false),
    (58, 20, 8, 8, false),
    (59, 20, 9, 1, false),
    (60, 7, 9, 2, false),
    (62, 13, 9, 3, false),
    (63, 7, 9, 5, false),
    (65, 13, 9, 6, false),
    (66, 20, 9, 8, false),
    (67, 20, 10, 1, false),
    (68, 7, 10, 2, false),
    (70, 13, 10, 3, false),
    (71, 7, 10, 5, false),
    (73, 13, 10, 6, false),
    (74, 20, 10, 8, false),
    (75, 20, 11, 1, false),
    (76, 7, 11, 2, false),
    (78, 13, 11, 3, false),
    (79, 7, 11, 5, false),
    (81, 13, 11, 6, false),
    (82, 20, 11, 8, false),
    (83, 20, 12, 1, false),
    (84, 7, 12, 2, false),
    (86, 13, 12, 3, false),
    (87, 7, 12, 5, false),
    (89, 20, 12, 7, false),
    (90, 20, 13, 1, false),
    (91, 7, 13, 2, false),
    (93, 13, 13, 3, false),
    (94, 7, 13, 5, false),
    (96, 20, 13, 7, false),
    (97, 20, 14, 1, false),
    (98, 7, 14, 2, false),
    (100, 13, 14, 3, false),
    (101, 7, 14, 5, false),
    (103, 20, 14, 7, false),
    (104, 20, 15, 1, false),
    (105, 6, 15, 1, false),
    (107, 19, 15, 4, false),
    (109, 13, 15, 5, false),
    (110, 19, 15, 7, false),
    (112, 13, 15, 8, false),
    (113, 19, 15, 10, false),
    (115, 13, 15, 11, false),
    (116, 20, 15, 13, false),
    (117, 20, 16, 1, false),
    (118, 6, 16, 1, false),
    (120, 24, 16, 4, false),
    (121, 24, 17, 1, false),
    (122, 21, 17, 1, false),
    (127, 7, 17, 7, false),
    (129, 20, 17, 9, false),
    (130, 20, 18, 1, false),
    (131, 7, 18, 2, false),
    (133, 13, 18, 3, false),
    (134, 7, 18, 5, false),
    (136, 20, 18, 7, true),
    (138, 13, 18, 8, false),
    (139, 20, 18, 10, true),
    (141, 13, 18, 11, false),
    (142, 20, 18, 13, true),
    (144, 13, 18, 14, false),
    (145, 20, 18, 16, false),
    (146, 20, 19, 1, false),
    (147, 7, 19, 2, false),
    (149, 13, 19, 3, false),
    (150, 7, 19, 5, false),
    (152, 20, 19, 7, true),
    (154, 13, 19, 8, false),
    (155, 20, 19, 10, true),
    (157, 13, 19, 11, false),
    (158, 20, 19, 13, true),
    (160, 13, 19, 14, false),
    (161, 20, 19, 16, false),
    (162, 20, 20, 1, false),
    (163, 7, 20, 2, false),
    (165, 13, 20, 3, false),
    (166, 7, 20, 5, false),
    (168, 20, 20, 7, true),
    (170, 13, 20, 8, false),
    (171, 20, 20, 10, true),
    (173, 13, 20, 11, false),
    (174, 20, 20, 13, true),
    (176, 13, 20, 14, false),
    (177, 20, 20, 16, false),
    (178, 20, 21, 1, false),
    (179, 6, 21, 1, false),
];

#[test]
fn refuses_cut_documents(rt: HostRuntime) -> Result<(), Fail> {
    let pattern = ([GATE_PATTERN, ""], [GATE_PATTERN, ""]);
    check_cuts(&rt, rt.alloc(), "print", pattern, PATTERN_CUTS.as_slice())?;
    let refuted = ([NO_FLOW, NO_FLOW_REFUTER], ["yes", ""]);
    check_cuts(&rt, rt.alloc(), "check", refuted, REFUTED_CUTS.as_slice())
}
