use super::*;
use mc_lex::{TextEnd, Words};
use std::test::Fail;

#[test]
fn traces_are_read_and_written(rt: HostRuntime) -> Result<(), Fail> {
    trace_texts_are_read();
    trace_texts_differ();
    let mut words = Words::new(b"u 012 xe\nu 4 drop\nend".as_slice());
    let uses = read_trace(rt.alloc(), &mut words)?;
    let text = print_trace(rt.alloc(), &uses)?;
    assert_eq!(rt;
        text.as_slice(),
        b"trace 1\nu 12 xe\nu 4 drop\nend\n".as_slice()
    );
    for (text, code, line, column) in [
        ("u 1 xx\n", 6, 1, 5),
        ("u 00001 xe\n", 11, 1, 3),
        ("u 1\n", 7, 1, 4),
        ("end u\n", 8, 1, 5),
    ] {
        assert!(rt; text.len() < 100);
        let mut words = Words::new(text.as_bytes());
        let end = read_trace(rt.alloc(), &mut words).err().expect(&rt, text);
        assert_eq!(rt; end, TextEnd::Refused { code, line, column });
    }
    Ok(())
}
