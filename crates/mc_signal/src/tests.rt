use super::*;
use mc_model::Memory;
use std::alloc::Global;
use std::test::Fail;

fn set_of(alloc: Global, members: &[u16]) -> Result<QSet, Memory> {
    let mut set = QSet::new(alloc);
    for q in members {
        if *q < 256 {
            set.toggle(*q)?;
        }
    }
    Ok(set)
}

fn lists(set: &QSet, members: &[u16]) -> bool {
    if set.len() != members.len() {
        return false;
    }
    let mut same = true;
    for i in 0..members.len() {
        same &= set.get(i) == members[i];
    }
    same
}

#[test]
fn adds_and_replaces(rt: HostRuntime) -> Result<(), Fail> {
    let alloc = rt.alloc();
    let mut signal = Signal::of(set_of(alloc, &[2, 1])?);
    assert!(rt; lists(signal.members(), &[1, 2]));
    signal.replace(2, &Signal::of(set_of(alloc, &[2, 5])?))?;
    assert!(rt; lists(signal.members(), &[1, 2, 5]));
    signal.add(&Signal::of(set_of(alloc, &[1])?))?;
    assert!(rt; lists(signal.members(), &[2, 5]));
    signal.toggle(9)?;
    let copy = signal.copy()?;
    assert!(rt; copy.has(9) && !copy.is_empty() && Signal::empty(alloc).is_empty());
    Ok(())
}

#[test]
fn adds_constants(rt: HostRuntime) -> Result<(), Fail> {
    let alloc = rt.alloc();
    let mut signal = Signal::one(alloc);
    assert!(rt; signal.constant() && !signal.is_empty());
    signal.toggle(3)?;
    signal.add(&Signal::one(alloc))?;
    assert!(rt; !signal.constant() && signal.has(3));
    signal.flip();
    let outcomes = Outcomes::new(alloc, 256)?;
    let taken = signal.take();
    assert!(rt; signal.is_empty() && taken.constant() && taken.has(3));
    let _ = taken.members().len();
    assert!(rt; taken.value(&outcomes));
    Ok(())
}

#[test]
fn sums_outcomes(rt: HostRuntime) -> Result<(), Fail> {
    let alloc = rt.alloc();
    let mut outcomes = Outcomes::new(alloc, 256)?;
    outcomes.set(5, true);
    assert!(rt; outcomes.get(5) && !outcomes.get(2));
    let members = set_of(alloc, &[2, 5])?;
    assert!(rt; members.has(5) && !members.has(300) && members.copy()?.len() == 2);
    let signal = Signal::of(members);
    let _ = signal.members().len();
    assert!(rt; signal.value(&outcomes));
    Ok(())
}
