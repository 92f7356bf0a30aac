//! Certificates of the path from the input `a` over `b` to the output `c`.

ghost use Rattle.mc_cert_text.specs.Kinds.{IsCertKind};

use super::*;
use mc_cert::Verdict;
use mc_graph::{Angle, GraphBuilder, Name, Names, OpenGraph};
use mc_lex::{Kind, TextEnd, Words};
use std::alloc::Global;
use std::process::Abort;
use std::test::Fail;

fn name(rt: &impl Abort, word: &str) -> Name {
    Name::read(word.as_bytes()).expect(rt, "a name")
}

fn path(rt: &impl Abort, alloc: Global) -> Result<OpenGraph<4>, Fail> {
    let mut inputs = Names::new(alloc);
    assert_eq!(rt; inputs.add(name(rt, "a")), Ok(0));
    let mut builder: GraphBuilder<4> = GraphBuilder::new(alloc, inputs)?;
    assert_eq!(rt; builder.vertex(name(rt, "b")), Ok(1));
    assert_eq!(rt; builder.vertex(name(rt, "c")), Ok(2));
    assert_eq!(rt; builder.edge(0, 1), Ok(()));
    assert_eq!(rt; builder.edge(1, 2), Ok(()));
    assert_eq!(rt; builder.angle(0, Angle::of(1)), Ok(()));
    assert_eq!(rt; builder.angle(1, Angle::of(2)), Ok(()));
    Ok(builder.finish(&[2]).ok().expect(rt, "a graph"))
}

fn verdict(
    rt: &impl Abort,
    alloc: Global,
    g: &OpenGraph<4>,
    kind: Kind,
    text: &str,
) -> Result<Verdict, TextEnd>
    requires { IsCertKind kind }
{
    assert!(rt; text.len() < 100);
    let mut words = Words::new(text.as_bytes());
    match read_cert(alloc, &mut words, kind, g) {
        Ok(cert) => Ok(check_cert(g, &cert)),
        Err(end) => Err(end),
    }
}

/// What is printed of the certificate that a text spells.
fn printed(
    rt: &impl Abort,
    alloc: Global,
    g: &OpenGraph<4>,
    kind: Kind,
    text: &str,
) -> Result<Vec<u8>, Fail>
    requires { IsCertKind kind }
{
    assert!(rt; text.len() < 100);
    let mut words = Words::new(text.as_bytes());
    let cert = read_cert(alloc, &mut words, kind, g)?;
    Ok(print_cert(alloc, g, &cert)?)
}

#[test]
fn flows_are_read_and_written(rt: HostRuntime) -> Result<(), Fail> {
    let g = path(&rt, rt.alloc())?;
    let text = "depth 2\ng 1 b : c\ng 02 a : b\nend";
    let found = verdict(&rt, rt.alloc(), &g, Kind::Flow, text)?;
    assert_eq!(&rt; found, Verdict::Yes);
    let text = printed(&rt, rt.alloc(), &g, Kind::Flow, text)?;
    let due = b"flow 1\ndepth 2\ng 1 b : c\ng 2 a : b\nend\n".as_slice();
    assert_eq!(&rt; text.as_slice(), due);
    Ok(())
}

#[test]
fn refuters_and_stuck_sets_are_read_and_written(rt: HostRuntime) -> Result<(), Fail> {
    let g = path(&rt, rt.alloc())?;
    let text = printed(&rt, rt.alloc(), &g, Kind::NoFlow, "y b : b a\nend\n")?;
    assert_eq!(&rt; text.as_slice(), b"noflow 1\ny b : a b\nend\n".as_slice());
    let text = printed(&rt, rt.alloc(), &g, Kind::NoCausal, "b c a\nend\n")?;
    assert_eq!(&rt; text.as_slice(), b"nocausal 1\nb a c\nend\n".as_slice());
    Ok(())
}

#[test]
fn false_flows_are_found(rt: HostRuntime) -> Result<(), Fail> {
    let g = path(&rt, rt.alloc())?;
    for (text, row, rule) in [
        ("depth 2\ng 1 c : b\ng 2 a : b\nend", 1, 1),
        ("depth 1\ng 1 b : c\ng 2 a : b\nend", 2, 2),
        ("depth 2\ng 1 b : a\ng 2 a : b\nend", 1, 3),
        ("depth 2\ng 1 b : b\ng 2 a : b\nend", 1, 4),
        ("depth 2\ng 1 b :\ng 2 a : b\nend", 1, 5),
        ("depth 2\ng 1 a : b\ng 2 b : c\nend", 1, 6),
        ("depth 1\ng 1 b : c\nend", 2, 8),
        ("depth 3\ng 1 b : c\ng 2 a : b\nend", 3, 9),
    ] {
        let found = verdict(&rt, rt.alloc(), &g, Kind::Flow, text)?;
        assert_eq!(&rt; found, Verdict::No { row, rule });
    }
    Ok(())
}

#[test]
fn false_refuters_and_stuck_sets_are_found(rt: HostRuntime) -> Result<(), Fail> {
    let g = path(&rt, rt.alloc())?;
    for (text, rule) in [
        ("end", 1),
        ("y c : c\nend", 2),
        ("y b : a\nend", 3),
        ("y b : a b\nend", 4),
        ("y b : b\nend", 5),
    ] {
        let found = verdict(&rt, rt.alloc(), &g, Kind::NoFlow, text)?;
        assert_eq!(&rt; found, Verdict::No { row: 1, rule });
    }
    for (text, rule) in [("b\nend", 1), ("b c\nend", 2), ("b a b\nend", 3)] {
        let found = verdict(&rt, rt.alloc(), &g, Kind::NoCausal, text)?;
        assert_eq!(&rt; found, Verdict::No { row: 1, rule });
    }
    Ok(())
}

#[test]
fn bounds_are_read_and_written(rt: HostRuntime) -> Result<(), Fail> {
    let g = path(&rt, rt.alloc())?;
    let text = "depth 2\nl 1 b\nl 02 a\ny 1 a : a\nend\n";
    let found = verdict(&rt, rt.alloc(), &g, Kind::Least, text)?;
    assert_eq!(&rt; found, Verdict::Yes);
    let text = printed(&rt, rt.alloc(), &g, Kind::Least, text)?;
    let due = b"least 1\ndepth 2\nl 1 b\nl 2 a\ny 1 a : a\nend\n".as_slice();
    assert_eq!(&rt; text.as_slice(), due);
    Ok(())
}
