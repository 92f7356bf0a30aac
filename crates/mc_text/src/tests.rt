//! Sections without rules of their own, headers, and the words that kinds share.

use crate::{
    Fault, Form, Head, Header, Kinds, Mark, Point, Section, Stop, Turning, angle, define, fixed,
    headers_are_read, known, number, print_header, read_header, read_section, unlisted,
};
use mc_angle::Angle;
use mc_lex::{Kind, TextEnd, Words};
use mc_model::Memory;
use mc_names::Names;
use std::process::Abort;
use std::test::Fail;

/// A section that takes every word.
#[derive(Clone, Copy)]
struct Anything;

impl Section for Anything {
    ghost use Rattle.std.specs.Prelude.{None};

    ghost rules = { λ _. record { judge = λ before here word. None; lacks = λ before here. None } };

    ghost means = { λ _ before here. Unit {0} };

    fn word(&mut self, _point: Point, _word: &[u8]) -> Result<(), Stop> {
        Ok(())
    }

    fn end_line(&mut self, _point: Point) -> Result<(), Stop> {
        Ok(())
    }
}

#[test]
fn sections(rt: HostRuntime) {
    let mut words = Words::new(b"in a # b\n\nend c\nmore");
    assert_eq!(rt; read_section(&mut words, &mut Anything), Ok(()));
    assert!(rt; words.next_line());
    assert_eq!(rt;
        read_section(&mut words, &mut Anything),
        Err(Fault::TextEnds.at(4, 5))
    );

    let mut stray = Words::new(b"in a\n j \x7f\nend");
    assert_eq!(rt;
        read_section(&mut stray, &mut Anything),
        Err(Fault::StrayByte.at(2, 4))
    );
}

/// Any kind, in this form.
#[derive(Clone, Copy)]
struct All {
    form: Form,
}

impl Kinds for All {
    ghost use Rattle.std.specs.Prelude.{None};
    ghost use Rattle.mc_text.specs.declared.fault.Fault.TheVariants.{NoKind};

    ghost refused = { λ _ kind. None };

    ghost unknown = { λ _. NoKind };

    ghost form = { λ k kind. k.form };

    fn refused(&self, _kind: Kind) -> Option<Fault> {
        None
    }

    fn unknown(&self) -> Fault {
        Fault::NoKind
    }

    fn form(&self, _kind: Kind) -> Form {
        self.form
    }
}

fn header(rt: &impl Abort, form: Form, text: &str) -> Result<Header, TextEnd> {
    assert!(rt; text.len() < 100);
    let mut words = Words::new(text.as_bytes());
    words.next_line();
    read_header(&All { form }, &mut words)
}

#[test]
fn headers(rt: HostRuntime) {
    let said = Form {
        second: true,
        turning: Turning::Said,
    };
    let like = Form {
        second: false,
        turning: Turning::Like(4),
    };
    for (form, text, end) in [
        (said, "circle 1", Fault::NoKind.at(1, 1)),
        (said, "circuit", Fault::LineEnds.at(1, 8)),
        (said, "circuit 01", Fault::NotVersion.at(1, 9)),
        (like, "circuit 2", Fault::NotVersion.at(1, 9)),
        (
            Form::plain(),
            " circuit 1 turn 8 # \n",
            Fault::Surplus.at(1, 12),
        ),
        (said, "circuit 1 turn", Fault::LineEnds.at(1, 15)),
        (said, "circuit 1 turn 08", Fault::NotNumber.at(1, 16)),
        (like, "circuit 1 turn 16 8", Fault::StepDiffers.at(1, 16)),
        (said, "circuit 1 turn 16 8", Fault::Surplus.at(1, 19)),
    ] {
        assert_eq!(rt; header(&rt, form, text), Err(end));
    }
    for (form, text, version, half) in [
        (Form::plain(), "\tcircuit 1 # 2", 1, 4),
        (said, "\ncircuit 2 turn 16\nin", 2, 8),
        (like, " circuit 1 turn 8", 1, 4),
    ] {
        let found = header(&rt, form, text);
        assert!(rt; found.is_ok());
        if let Ok(header) = found {
            assert_eq!(rt; (header.version, header.half), (version, half));
        }
    }
}

#[test]
fn headers_are_printed(rt: HostRuntime) -> Result<(), Memory> {
    let mut text = Vec::new(rt.alloc());
    print_header(&mut text, Kind::Circuit, 1, 4)?;
    print_header(&mut text, Kind::Pattern, 2, 8)?;
    assert!(rt; text.as_slice() == b"circuit 1\npattern 2 turn 16\n".as_slice());
    headers_are_read();
    Ok(())
}

#[test]
fn names_of_a_text(rt: HostRuntime) -> Result<(), Fail> {
    let mut names = Names::new(rt.alloc());
    assert_eq!(rt; define(&mut names, b"a"), Ok(0));
    assert_eq!(rt; define(&mut names, b"b"), Ok(1));
    assert_eq!(rt;
        define(&mut names, b"a"),
        Err(Stop::Fault(Fault::DefinedTwice))
    );
    assert_eq!(rt; known(&names, b"b"), Ok(1));
    assert_eq!(rt; known(&names, b"c"), Err(Stop::Fault(Fault::NotDefined)));
    assert_eq!(rt; unlisted(&names, &[0], b"b"), Ok(1));
    assert_eq!(rt;
        unlisted(&names, &[0, 1], b"b"),
        Err(Stop::Fault(Fault::ListedTwice))
    );
    Ok(())
}

#[test]
fn other_words(rt: HostRuntime) {
    assert_eq!(rt; angle::<4>(b"-1"), Ok(Angle::of(7)));
    assert_eq!(rt; angle::<4>(b"x"), Err(Stop::Fault(Fault::NotAngle)));
    assert_eq!(rt; number(b"0120"), Ok(120));
    assert_eq!(rt; number(b"-1"), Err(Stop::Fault(Fault::NotNumber)));
    assert_eq!(rt; fixed(b":", b":"), Ok(()));
    assert_eq!(rt; fixed(b"s:", b":"), Err(Stop::Fault(Fault::NotFixed)));
    assert_eq!(rt; Head::read(b"ccx"), Some(Head::Ccx));
    assert_eq!(rt; Mark::read(b"t:"), Some(Mark::T));
    assert!(rt; Head::Sdg.word() == b"sdg".as_slice());
    assert_eq!(rt; Stop::from(Memory), Stop::Memory);
    assert_eq!(rt; Fault::BitsDiffer.code(), 25);
    let end = TextEnd::Refused {
        code: 21,
        line: 3,
        column: 1,
    };
    assert_eq!(rt; Fault::BehindEnd.at(3, 1), end);
}
