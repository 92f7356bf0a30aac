ghost use Rattle.std.specs.Prelude.{◌≤◌, length};
ghost use Rattle.mc_model.specs.Limits.{most_bytes};

use super::*;
use std::alloc::Global;
use std::test::Fail;

/// What is printed of the document that a text spells.
fn printed(alloc: Global, text: &[u8]) -> Result<Vec<u8>, Fail>
    requires { length text.now ≤ most_bytes }
{
    let read = read_document::<4>(alloc, text, Takes::all())?;
    Ok(print_document(alloc, &read)?)
}

/// Reads texts as documents, and compares what is printed of them.
#[test]
fn reads_and_prints(rt: HostRuntime) -> Result<(), Fail> {
    let alloc = rt.alloc();
    for text in [
        "pattern 1\nin a\nm a 0\nout\nend\nchange 2\no a !\nend\n",
        "pattern 1\nin a\nm a 0\nout\nend\ntrace 1\nu 1 cancel\nend\n",
        "graph 2\nin a\nn b\ne a b\nm a 1\nout b\nz b\nend\nnoflow 1\ny a : a\nend\n",
        "gates 1\nin a\nx a\nout a\nend\n",
    ] {
        assert_eq!(&rt;
            printed(alloc, text.as_bytes())?.as_slice(),
            text.as_bytes()
        );
    }
    Ok(())
}

/// Reads two patterns in sixteenths, and compares the place of the second.
#[test]
fn reads_two_patterns(rt: HostRuntime) -> Result<(), Fail> {
    let text = b"\n pattern 1 turn 16\nin\nout\nend\n pattern 2\nin\nout\nend".as_slice();
    assert_eq!(&rt; turn_of(text), 8);
    let placed = read_placed::<8>(rt.alloc(), text, Takes::two_patterns())?;
    assert_eq!(&rt; (placed.line, placed.column), (2, 2));
    let (_, _, line, column) = placed.document.into_two();
    assert_eq!(&rt; (line, column), (6, 2));
    Ok(())
}
