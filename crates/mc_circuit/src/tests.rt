use super::*;
use mc_lex::{TextEnd, Words};
use std::alloc::Global;
use std::process::Abort;
use std::test::Fail;

fn name(rt: &impl Abort, word: &str) -> Name {
    Name::read(word.as_bytes()).expect(rt, "a name")
}

#[test]
fn builds_and_prints(rt: HostRuntime) -> Result<(), Fail> {
    let mut inputs = Names::new(rt.alloc());
    inputs.add(name(&rt, "a"))?;
    let mut builder = CircuitBuilder::<4>::new(rt.alloc(), inputs);
    assert_eq!(rt; builder.plus(name(&rt, "a")), Err(CircuitEnd::Twice(0)));
    assert_eq!(rt; builder.plus(name(&rt, "b")), Ok(1));
    let angle = Angle::of(-1);
    assert_eq!(rt; builder.push(Gate::J { wire: 1, angle }), Ok(()));
    assert_eq!(rt;
        builder.push(Gate::Cz { a: 1, b: 1 }),
        Err(CircuitEnd::Rule(2))
    );
    assert_eq!(rt; builder.push(Gate::Cz { a: 1, b: 0 }), Ok(()));
    let (builder, end) = builder.finish(&[0, 0]).err().expect(&rt, "wire 1 lacks");
    assert_eq!(rt; end, CircuitEnd::Rule(3));
    let circuit = builder.finish(&[1, 0]).ok().expect(&rt, "a circuit");
    assert_eq!(rt;
        (
            circuit.inputs(),
            circuit.names().len(),
            circuit.gates().len()
        ),
        (1, 2, 2)
    );
    assert_eq!(rt; circuit.out(), [1, 0].as_slice());
    let text = print_circuit(rt.alloc(), &circuit)?;
    let want = "circuit 1\nin a\nplus b\nj b 7\ncz b a\nout b a\nend\n";
    assert_eq!(rt; text.as_slice(), want.as_bytes());
    Ok(())
}

fn read(rt: &impl Abort, alloc: Global, text: &str) -> Result<Circuit<4>, TextEnd> {
    assert!(rt; text.len() < 100);
    let mut words = Words::new(text.as_bytes());
    words.next_line();
    read_circuit(alloc, &mut words)
}

#[test]
fn laws_hold_for_eighths() {
    canonical_texts_are_read::<4>();
    canonical_texts_differ::<4>();
}

#[test]
fn reads_and_prints(rt: HostRuntime) -> Result<(), Fail> {
    let text = "circuit 1 \r\n\tin a# one input\nplus b\n\nj a -0001\ncz  b a\nout b a\nend";
    let circuit = read(&rt, rt.alloc(), text).ok().expect(&rt, "a circuit");
    let printed = print_circuit(rt.alloc(), &circuit)?;
    let want = "circuit 1\nin a\nplus b\nj a 7\ncz b a\nout b a\nend\n";
    assert_eq!(rt; printed.as_slice(), want.as_bytes());

    for (text, code, line, column) in [
        ("circuit 1\nin a\nj b 0\nout a\nend\n", 13, 3, 3),
        ("circuit 1\nin a b\nout a a\nend", 18, 3, 7),
        ("circuit 1\nin a b\nout a\nend", 19, 3, 6),
    ] {
        let end = read(&rt, rt.alloc(), text).err().expect(&rt, text);
        assert_eq!(rt; end, TextEnd::Refused { code, line, column });
    }
    Ok(())
}
