use super::*;
use mc_angle::Angle;
use mc_lex::{TextEnd, Words};
use mc_names::{Name, Names};
use mc_pattern::{Builder, Command, Pattern};
use mc_signal::Signal;
use std::alloc::Global;
use std::process::Abort;
use std::test::Fail;

fn name(rt: &impl Abort, word: &str) -> Name {
    Name::read(word.as_bytes()).expect(rt, "a name")
}

/// `J` at one eighth: the input is measured, and what comes out is corrected.
fn with_j(rt: &impl Abort, alloc: Global) -> Result<Pattern<4>, Fail> {
    let mut inputs = Names::new(alloc);
    assert_eq!(rt; inputs.add(name(rt, "a")), Ok(0));
    let mut builder = Builder::new(alloc, inputs)?;
    assert_eq!(rt; builder.prep(name(rt, "q1")), Ok(1));
    assert_eq!(rt; builder.push(Command::Ent(0, 1)), Ok(()));
    let measure = Command::Meas {
        q: 0,
        angle: Angle::of(-1),
        s: Signal::empty(alloc),
        t: Signal::empty(alloc),
    };
    assert_eq!(rt; builder.push(measure), Ok(()));
    let mut s = Signal::empty(alloc);
    s.toggle(0)?;
    assert_eq!(rt; builder.push(Command::FixX { q: 1, s }), Ok(()));
    match builder.finish(&[1]) {
        Ok(pattern) => Ok(pattern),
        Err((_, end)) => Err(end.into()),
    }
}

#[test]
fn prints_a_pattern(rt: HostRuntime) -> Result<(), Fail> {
    let pattern = with_j(&rt, rt.alloc())?;
    let text = print_pattern(rt.alloc(), &pattern)?;
    let due = b"pattern 1\nin a\nn q1\ne a q1\nm a 7\nx q1 a\nout q1\nend\n";
    assert_eq!(rt; text.as_slice(), due.as_slice());
    Ok(())
}

fn read(rt: &impl Abort, alloc: Global, text: &[u8]) -> Result<Pattern<4>, TextEnd> {
    assert!(rt; text.len() < 200);
    let version = if text.starts_with(b"pattern 2") { 2 } else { 1 };
    let mut words = Words::new(text);
    words.next_line();
    read_pattern(alloc, &mut words, version)
}

#[test]
fn reads_what_it_prints(rt: HostRuntime) -> Result<(), Fail> {
    let text = print_pattern(rt.alloc(), &with_j(&rt, rt.alloc())?)?;
    let pattern = read(&rt, rt.alloc(), text.as_slice())
        .ok()
        .expect(&rt, "a pattern");
    let again = print_pattern(rt.alloc(), &pattern)?;
    assert_eq!(rt; again.as_slice(), text.as_slice());
    Ok(())
}

#[test]
fn reads_signals(rt: HostRuntime) -> Result<(), Fail> {
    for (text, due) in [
        (
            "pattern 1 \r\nin a b# inputs\n\nm a -0001 s:\nm b 3 s:  a t:\nout\nend",
            "pattern 1\nin a b\nm a 7\nm b 3 s: a\nout\nend\n",
        ),
        (
            "pattern 1\nin b a c\nm a 0\nm b 0\nm c 1 t: a b\nout\nend\n",
            "pattern 1\nin b a c\nm a 0\nm b 0\nm c 1 t: b a\nout\nend\n",
        ),
        (
            "pattern 1\nin a b\nn c\ne c b\nm a 0\nm b 0 s: a t: a\nx c\nz c b a\nout c\nend\n",
            "pattern 1\nin a b\nn c\ne c b\nm a 0\nm b 0 s: a t: a\nx c\nz c a b\nout c\nend\n",
        ),
        (
            "pattern 2\nin a b c\nm a 0 t: !\nm b 0 s: ! a\nx c b ! a\nz c !\nout c\nend\n",
            "pattern 2\nin a b c\nm a 0 t: !\nm b 0 s: a !\nx c a b !\nz c !\nout c\nend\n",
        ),
    ] {
        let pattern = read(&rt, rt.alloc(), text.as_bytes())
            .ok()
            .expect(&rt, text);
        let printed = print_pattern(rt.alloc(), &pattern)?;
        assert_eq!(rt; printed.as_slice(), due.as_bytes());
    }
    Ok(())
}

#[test]
fn answers_first_faults(rt: HostRuntime) {
    for (text, code, line, column) in [
        (
            "pattern 1\nin a b\nm a 0 s: b\nm b 0\nout\nend\n",
            17,
            3,
            10,
        ),
        ("pattern 1\nin a\nm a 0 s: a\nout\nend\n", 17, 3, 10),
        (
            "pattern 1\nin a b\nm a 0\nm b 0 s: a a\nout\nend\n",
            18,
            4,
            12,
        ),
        (
            "pattern 1\nin a b\nm a 0\nm b 0 s: s: a\nout\nend\n",
            9,
            4,
            10,
        ),
        ("pattern 1\nin a b\nm a 0\nm b 0 a\nout\nend\n", 6, 4, 7),
        ("pattern 1\nin a b\nm a 0\ne b a\nout b\nend\n", 14, 4, 5),
        ("pattern 1\nin a\ne a a\nout a\nend\n", 15, 3, 5),
        ("pattern 1\nin a\nn a\nout a\nend\n", 12, 3, 3),
        ("pattern 1\nin a\nx\nout a\nend\n", 7, 3, 2),
        ("pattern 1\nin a b\nm a 0\nout\nend\n", 19, 4, 4),
        ("pattern 1\nin a\nx a !\nout a\nend\n", 9, 3, 5),
        ("pattern 2\nin a\nx a ! !\nout a\nend\n", 18, 3, 7),
        ("pattern 2\nin a\nm a 0 !\nout\nend\n", 6, 3, 7),
    ] {
        let end = read(&rt, rt.alloc(), text.as_bytes())
            .err()
            .expect(&rt, text);
        assert_eq!(rt; end, TextEnd::Refused { code, line, column });
    }
}

#[test]
fn laws_hold_for_eighths() {
    canonical_texts_are_read::<4>();
    canonical_texts_differ::<4>();
    clean_texts_spell_patterns::<4>();
}
