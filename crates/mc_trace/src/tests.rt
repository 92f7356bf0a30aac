use super::*;
use mc_names::{Name, Names};
use mc_pattern::{Builder, Command, Pattern};
use std::alloc::Global;
use std::process::Abort;
use std::test::Fail;

/// Two entanglings of the same two inputs.
fn entangled_twice(rt: &impl Abort, alloc: Global) -> Result<Pattern<4>, Fail> {
    let mut inputs = Names::new(alloc);
    for word in ["a", "b"] {
        let name = Name::read(word.as_bytes()).expect(rt, "a name");
        let _ = inputs.add(name).expect(rt, "a new name");
    }
    let mut builder: Builder<4> = Builder::new(alloc, inputs)?;
    assert_eq!(rt; builder.push(Command::Ent(0, 1)), Ok(()));
    assert_eq!(rt; builder.push(Command::Ent(1, 0)), Ok(()));
    match builder.finish(&[0, 1]) {
        Ok(pattern) => Ok(pattern),
        Err((_, end)) => Err(Fail::from(end)),
    }
}

#[test]
fn cancels_two_edges(rt: HostRuntime) -> Result<(), Fail> {
    let alloc = rt.alloc();
    let pattern = entangled_twice(&rt, alloc)?;
    assert!(rt; pattern.commands().len() <= 64);
    let mut derivation = Derivation::new(alloc);
    let none = check_trace(alloc, &pattern, &derivation)?;
    assert_eq!(rt; none, Verdict::No { row: 1, rule: 4 });
    let cancel = Use {
        place: 1,
        rule: Rule::Cancel,
    };
    derivation.push(cancel)?;
    assert!(rt; derivation.len() == 1);
    assert_eq!(rt; derivation.get(0), cancel);
    assert_eq!(rt; check_trace(alloc, &pattern, &derivation)?, Verdict::Yes);
    let derived = derive(alloc, &pattern)?;
    assert!(rt; derived.len() <= 2);
    assert_eq!(rt; check_trace(alloc, &pattern, &derived)?, Verdict::Yes);
    Ok(())
}
