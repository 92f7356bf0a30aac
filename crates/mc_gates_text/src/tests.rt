use super::*;
use mc_circuit::print_circuit;
use mc_gates::{GateList, lower};
use mc_lex::{TextEnd, Words};
use std::alloc::Global;
use std::process::Abort;
use std::test::Fail;

fn read(rt: &impl Abort, alloc: Global, text: &str) -> Result<GateList, TextEnd> {
    assert!(rt; text.len() < 100);
    let mut words = Words::new(text.as_bytes());
    words.next_line();
    read_gates(alloc, &mut words)
}

#[test]
fn reads_prints_and_lowers(rt: HostRuntime) -> Result<(), Fail> {
    let alloc = rt.alloc();
    let text = "gates 1\r\n in a\nplus b#\n\nswap  a b\nsdg a\nout a b\nend";
    let gates = read(&rt, alloc, text).ok().expect(&rt, "a gate list");
    let printed = print_gates(alloc, &gates)?;
    let want = "gates 1\nin a\nplus b\nswap a b\nsdg a\nout a b\nend\n";
    assert_eq!(rt; printed.as_slice(), want.as_bytes());
    let circuit = lower(alloc, &gates)?;
    let printed = print_circuit(alloc, &circuit)?;
    let want = "circuit 1\nin a\nplus b\nj b 6\nj b 0\nout b a\nend\n";
    assert_eq!(rt; printed.as_slice(), want.as_bytes());
    Ok(())
}

#[test]
fn answers_first_faults(rt: HostRuntime) {
    for (text, code, line, column) in [
        ("gates 1\nin a b\nccx a b a\nout a b\nend\n", 15, 3, 9),
        ("gates 1\nin a b\ncx a\nout a b\nend\n", 7, 3, 5),
        ("gates 1\nin a b\nt a b\nout a b\nend\n", 8, 3, 5),
    ] {
        let end = read(&rt, rt.alloc(), text).err().expect(&rt, text);
        assert_eq!(rt; end, TextEnd::Refused { code, line, column });
    }
}
