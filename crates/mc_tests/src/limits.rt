//! Each limit at its number, and one past it.

use crate::documents::{GATE, GATE_PATTERN};
use crate::served::{Due, check, served, spelled};
use itoa::Buffer;
use mc_top::Status;
use std::alloc::Global;
use std::process::Abort;
use std::test::Fail;

/// A head, so many times a line, and a tail.
fn repeated(
    alloc: Global,
    head: &'static str,
    line: (&str, u32),
    tail: &'static str,
) -> Result<Vec<u8>, Fail> {
    let mut text = spelled(alloc, [head, ""])?;
    for _ in 0..line.1 {
        text.extend_from_slice(line.0.as_bytes())?;
    }
    text.extend_from_slice(spelled(alloc, [tail, ""])?.as_slice())?;
    Ok(text)
}

/// Words, a head, a line, a tail, how many lines may stand, the number of the limit, and what is found one past it.
type Case = (
    &'static str,
    &'static str,
    &'static str,
    &'static str,
    u32,
    (u8, u64),
);

/// Serves a text with as many lines as may stand, which is done, and one with a line more.
fn check_case(rt: &impl Abort, alloc: Global, case: &Case) -> Result<(), Fail> {
    let (words, head, line, tail, most, due) = *case;
    let fits = repeated(alloc, head, (line, most), tail)?;
    assert_eq!(rt; served(alloc, words, fits.as_slice())?.0, Status::Done);
    let past = repeated(alloc, head, (line, most.saturating_add(1)), tail)?;
    check(rt, alloc, words, past.as_slice(), Due::Limit(due.0, due.1))
}

#[test]
fn counts_gates(rt: HostRuntime) -> Result<(), Fail> {
    let case = (
        "print",
        "circuit 1 ; in a b",
        "cz a b\n",
        "out a b ; end",
        32_768,
        (3, 32_769),
    );
    check_case(&rt, rt.alloc(), &case)
}

#[test]
fn counts_commands(rt: HostRuntime) -> Result<(), Fail> {
    let case = (
        "print",
        "pattern 1 ; in a b",
        "e a b\n",
        "out a b ; end",
        262_144,
        (3, 262_145),
    );
    check_case(&rt, rt.alloc(), &case)
}

#[test]
fn counts_qubits(rt: HostRuntime) -> Result<(), Fail> {
    let case = (
        "translate",
        "circuit 1 ; in a",
        "j a 0\n",
        "out a ; end",
        255,
        (2, 257),
    );
    check_case(&rt, rt.alloc(), &case)?;
    let case = (
        "standard",
        "circuit 1 ; in a",
        "j a 0\n",
        "out a ; end",
        255,
        (2, 257),
    );
    check_case(&rt, rt.alloc(), &case)
}

#[test]
fn counts_steps_of_runs(rt: HostRuntime) -> Result<(), Fail> {
    let case = (
        "run",
        "circuit 1 ; in a",
        "j a 0\n",
        "out a ; end",
        60,
        (5, 61),
    );
    check_case(&rt, rt.alloc(), &case)?;
    let case = (
        "run",
        "pattern 1 ; in a",
        "z a\n",
        "out a ; end",
        256,
        (5, 257),
    );
    check_case(&rt, rt.alloc(), &case)
}

#[test]
fn counts_uses(rt: HostRuntime) -> Result<(), Fail> {
    let case = (
        "trace",
        "pattern 1 ; in a b",
        "e a b\n",
        "out a b ; end",
        64,
        (6, 65),
    );
    check_case(&rt, rt.alloc(), &case)?;
    let head = "pattern 1 ; in a b ; e a b ; out a b ; end ; trace 1";
    let case = ("print", head, "u 1 turn\n", "end", 65_536, (7, 65_537));
    check_case(&rt, rt.alloc(), &case)
}

#[test]
fn counts_lowered_gates(rt: HostRuntime) -> Result<(), Fail> {
    let case = (
        "print",
        "gates 1 ; in a",
        "h a\n",
        "out a ; end",
        32_768,
        (3, 32_769),
    );
    check_case(&rt, rt.alloc(), &case)?;
    let (head, tail) = ("gates 1 ; in a b c", "out a b c ; end");
    let case = ("lower", head, "ccx a b c\n", tail, 1_638, (3, 32_780));
    check_case(&rt, rt.alloc(), &case)
}

/// Appends a blank and the name of a number.
fn add_name(text: &mut Vec<u8>, number: u32) -> Result<(), Fail> {
    let mut digits = Buffer::new();
    text.extend_from_slice(b" w")?;
    text.extend_from_slice(digits.format(number).as_bytes())?;
    Ok(())
}

/// So many names, each behind a blank.
fn names(alloc: Global, count: u32) -> Result<Vec<u8>, Fail> {
    let mut names = Vec::new(alloc);
    for number in 0..count {
        add_name(&mut names, number)?;
    }
    Ok(names)
}

/// A circuit, a pattern or a graph of so many inputs and nothing more, whose text is canonical.
fn bare(alloc: Global, kind: &str, count: u32) -> Result<Vec<u8>, Fail> {
    let names = names(alloc, count)?;
    let mut text = Vec::from_slice(alloc, kind.as_bytes())?;
    text.extend_from_slice(b" 1\nin")?;
    text.extend_from_slice(names.as_slice())?;
    text.extend_from_slice(b"\nout")?;
    text.extend_from_slice(names.as_slice())?;
    text.extend_from_slice(b"\nend\n")?;
    Ok(text)
}

#[test]
fn counts_names(rt: HostRuntime) -> Result<(), Fail> {
    let alloc = rt.alloc();
    let fits = bare(alloc, "circuit", 256)?;
    assert_eq!(&rt; served(alloc, "print", fits.as_slice())?.0, Status::Done);
    let past = bare(alloc, "circuit", 257)?;
    check(&rt, alloc, "print", past.as_slice(), Due::Limit(2, 257))?;
    check(&rt, alloc, "translate", past.as_slice(), Due::Limit(2, 257))
}

#[test]
fn counts_amplitudes(rt: HostRuntime) -> Result<(), Fail> {
    let alloc = rt.alloc();
    let fits = bare(alloc, "circuit", 8)?;
    assert_eq!(&rt; served(alloc, "run", fits.as_slice())?.0, Status::Done);
    let past = bare(alloc, "circuit", 9)?;
    check(&rt, alloc, "run", past.as_slice(), Due::Limit(4, 18))
}

#[test]
fn counts_vertices(rt: HostRuntime) -> Result<(), Fail> {
    let alloc = rt.alloc();
    let fits = bare(alloc, "graph", 64)?;
    assert_eq!(&rt; served(alloc, "least", fits.as_slice())?.0, Status::Done);
    let past = bare(alloc, "graph", 65)?;
    check(&rt, alloc, "least", past.as_slice(), Due::Limit(8, 65))
}

/// Appends the edges of a vertex to those of lower number.
fn add_edges(text: &mut Vec<u8>, number: u32) -> Result<(), Fail> {
    for other in 0..number {
        text.extend_from_slice(b"e")?;
        add_name(text, other)?;
        add_name(text, number)?;
        text.push(b'\n')?;
    }
    Ok(())
}

/// The complete graph on 256 vertices, all outputs, with so many flips.
fn complete(alloc: Global, flips: u32) -> Result<Vec<u8>, Fail> {
    let names = names(alloc, 256)?;
    let mut text = Vec::from_slice(alloc, b"graph 2\nin")?;
    text.extend_from_slice(names.as_slice())?;
    text.push(b'\n')?;
    for number in 0..256 {
        add_edges(&mut text, number)?;
    }
    text.extend_from_slice(b"out")?;
    text.extend_from_slice(names.as_slice())?;
    for number in 0..flips {
        text.extend_from_slice(b"\nx")?;
        add_name(&mut text, number)?;
    }
    text.extend_from_slice(b"\nend\n")?;
    Ok(text)
}

#[test]
fn counts_extracted_gates(rt: HostRuntime) -> Result<(), Fail> {
    let alloc = rt.alloc();
    let fits = complete(alloc, 64)?;
    assert_eq!(&rt; served(alloc, "extract", fits.as_slice())?.0, Status::Done);
    let past = complete(alloc, 65)?;
    check(
        &rt,
        alloc,
        "extract",
        past.as_slice(),
        Due::Limit(3, 32_770),
    )
}

#[test]
fn counts_qubits_side_by_side(rt: HostRuntime) -> Result<(), Fail> {
    let alloc = rt.alloc();
    let mut fits = bare(alloc, "pattern", 128)?;
    fits.extend_from_slice(bare(alloc, "pattern", 128)?.as_slice())?;
    assert_eq!(&rt; served(alloc, "beside", fits.as_slice())?.0, Status::Done);
    let mut past = bare(alloc, "pattern", 129)?;
    past.extend_from_slice(bare(alloc, "pattern", 128)?.as_slice())?;
    check(&rt, alloc, "beside", past.as_slice(), Due::Limit(2, 257))
}

/// A document with a comment that fills it to the last byte that may stand, and then one byte longer.
fn fill(rt: &impl Abort, alloc: Global, words: &str, answer: &'static str) -> Result<(), Fail> {
    let mut text = spelled(alloc, [GATE, ""])?;
    text.push(b'#')?;
    text.resize(8_388_608, b'x')?;
    check(rt, alloc, words, text.as_slice(), Due::Done(answer, ""))?;
    text.push(b'x')?;
    check(rt, alloc, words, text.as_slice(), Due::Limit(1, 8_388_609))
}

#[test]
fn counts_bytes(rt: HostRuntime) -> Result<(), Fail> {
    fill(&rt, rt.alloc(), "translate", GATE_PATTERN)?;
    fill(&rt, rt.alloc(), "print", GATE)
}

/// As many commands as a pattern may have, each correction before an entangling.
#[test]
fn standardises_the_longest_pattern(rt: HostRuntime) -> Result<(), Fail> {
    let alloc = rt.alloc();
    let head = "pattern 1 ; in a b c ; m a 0";
    let text = repeated(alloc, head, ("x b a\ne b c\n", 131_071), "out b c ; end")?;
    let due = Due::Done(
        "pattern 1 ; in a b c ; e b c ; m a 0 ; x b a ; out b c ; end",
        "",
    );
    check(&rt, alloc, "standard", text.as_slice(), due)
}
