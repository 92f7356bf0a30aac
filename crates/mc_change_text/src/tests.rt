use super::*;
use mc_angle::Angle;
use mc_lex::{TextEnd, Words};
use mc_names::{Name, Names};
use mc_pattern::{Builder, Command, Pattern};
use mc_signal::Signal;
use std::alloc::Global;
use std::process::Abort;
use std::test::Fail;

/// Three inputs, of which `b` and `a` are measured, in this order.
fn with_two(rt: &impl Abort, alloc: Global) -> Result<Pattern<4>, Fail> {
    let mut inputs = Names::new(alloc);
    for word in ["a", "b", "c"] {
        inputs.add(Name::read(word.as_bytes()).expect(rt, "a name"))?;
    }
    let mut builder = Builder::new(alloc, inputs)?;
    for q in [1, 0] {
        let measure = Command::Meas {
            q,
            angle: Angle::of(0),
            s: Signal::empty(alloc),
            t: Signal::empty(alloc),
        };
        assert_eq!(rt; builder.push(measure), Ok(()));
    }
    match builder.finish(&[2]) {
        Ok(pattern) => Ok(pattern),
        Err((_, end)) => Err(end.into()),
    }
}

#[test]
fn changes_are_read_and_written(rt: HostRuntime) -> Result<(), Fail> {
    change_texts_are_read();
    change_texts_differ();
    let pattern = with_two(&rt, rt.alloc())?;
    let mut words = Words::new(b"o b\no a ! b\nend".as_slice());
    let change = read_change(rt.alloc(), &mut words, &pattern, 2)?;
    let text = print_change(rt.alloc(), &pattern, &change)?;
    assert_eq!(rt;
        text.as_slice(),
        b"change 2\no b\no a b !\nend\n".as_slice()
    );
    for (version, text, code, line, column) in [
        (1, "o b !\n", 9, 1, 5),
        (2, "o b !\no a ! b !\n", 18, 2, 9),
        (2, "o b a\n", 17, 1, 5),
        (1, "o a\n", 22, 1, 3),
        (1, "o b\nend\n", 22, 2, 1),
    ] {
        assert!(rt; text.len() < 100);
        let mut words = Words::new(text.as_bytes());
        let end = read_change(rt.alloc(), &mut words, &pattern, version)
            .err()
            .expect(&rt, text);
        assert_eq!(rt; end, TextEnd::Refused { code, line, column });
    }
    Ok(())
}
