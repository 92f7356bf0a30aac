//! Rows of a small kind: lines `o NAME NAMES`, with a row for each name at most once, and `g NUMBER NAME : NAMES`.

use super::*;
use mc_lex::{TextEnd, Words};
use mc_model::Memory;
use mc_names::{Name, Names};
use mc_signal::QSet;
use mc_text::{Fault, Head, Stop, read_section};
use std::alloc::Global;
use std::process::Abort;
use std::test::Fail;

/// Rows of which only the number is kept, in a text in which `!` may stand.
#[derive(Drop)]
struct Counted {
    rows: usize,
}

impl Rows for Counted {
    ghost use Rattle.std.specs.Prelude.{◌≡◌, length};
    ghost use Rattle.mc_rows.specs.Counted.{counted};

    ghost kind = { λ _. counted };

    ghost holds = { λ k rows. k.rows ≡ length rows };

    fn follows(&self, _last: Option<Head>, _head: Option<Head>) -> bool {
        true
    }

    fn shape(&self, head: Option<Head>) -> Shape {
        match head {
            Some(Head::O) => Shape::Listed,
            Some(Head::G) => Shape::RankedSet,
            _ => Shape::Bare,
        }
    }

    fn second(&self) -> bool {
        true
    }

    fn bar_head(&self, _head: Option<Head>) -> Result<(), Stop> {
        Ok(())
    }

    fn bar_named(&self, _head: Option<Head>, _number: u16, _q: u16) -> Result<(), Stop> {
        Ok(())
    }

    fn bar_listed(&self, _q: u16) -> Result<(), Stop> {
        Ok(())
    }

    fn push(&mut self, _row: Row) -> Result<(), Stop> {
        match self.rows.checked_add(1) {
            Some(rows) => {
                self.rows = rows;
                Ok(())
            }
            None => Err(Stop::Memory),
        }
    }
}

fn names(rt: &impl Abort, alloc: Global) -> Names {
    let mut names = Names::new(alloc);
    for word in ["a", "b"] {
        let name = Name::read(word.as_bytes()).expect(rt, "a name");
        let _ = names.add(name);
    }
    names
}

fn read(rt: &impl Abort, alloc: Global, names: &Names, text: &str) -> Result<usize, TextEnd> {
    assert!(rt; text.len() < 100);
    let mut words = Words::new(text.as_bytes());
    let mut reader = RowReader::new(alloc, names, Counted { rows: 0 });
    if let Err(end) = read_section(&mut words, &mut reader) {
        return Err(end);
    }
    Ok(reader.kind.rows)
}

#[test]
fn rows_are_judged(rt: HostRuntime) -> Result<(), Fail> {
    let names = names(&rt, rt.alloc());
    assert_eq!(rt;
        read(&rt, rt.alloc(), &names, "o a ! b\ng 03 b :\n\nend"),
        Ok(2)
    );
    for (text, end) in [
        ("o a ! b !", Fault::ListedTwice.at(1, 9)),
        ("o !", Fault::NotName.at(1, 3)),
        ("o a b b", Fault::ListedTwice.at(1, 7)),
        ("o c", Fault::NotDefined.at(1, 3)),
        ("o # a", Fault::LineEnds.at(1, 2)),
        ("g x", Fault::NotNumber.at(1, 3)),
        ("g 1 a b", Fault::NotFixed.at(1, 7)),
        ("g 1 a\n", Fault::LineEnds.at(1, 6)),
        ("end x", Fault::Surplus.at(1, 5)),
        ("o a\n", Fault::TextEnds.at(2, 1)),
    ] {
        assert_eq!(rt; read(&rt, rt.alloc(), &names, text), Err(end));
    }
    Ok(())
}

#[test]
fn rows_are_written(rt: HostRuntime) -> Result<(), Memory> {
    let names = names(&rt, rt.alloc());
    assert_eq!(rt; names.len(), 2);
    let set = QSet::new(rt.alloc());
    let mut text = Vec::new(rt.alloc());
    let row = Parts {
        head: Head::G,
        number: 3,
        name: 0,
        set: &set,
        constant: true,
    };
    print_row(&mut text, &names, Shape::RankedSet, row)?;
    print_end(&mut text)?;
    assert!(rt; text.as_slice() == b"g 3 a : !\nend\n".as_slice());
    rows_are_read();
    rows_are_within();
    Ok(())
}
