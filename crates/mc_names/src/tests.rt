use super::*;
use std::process::Abort;
use std::test::Fail;

fn name(rt: &impl Abort, word: &str) -> Name {
    Name::read(word.as_bytes()).expect(rt, "a name")
}

#[test]
fn numbers_names(rt: HostRuntime) -> Result<(), Fail> {
    let mut names = Names::new(rt.alloc());
    let a = name(&rt, "a");
    assert_eq!(rt; names.add(a), Ok(0));
    assert_eq!(rt; names.add(a), Err(NamesEnd::Twice(0)));
    assert_eq!(rt; names.fresh().bytes(), b"q1".as_slice());
    let copy = names.copy()?;
    assert_eq!(rt; (copy.len(), copy.find(&a)), (1, Some(0)));
    assert_eq!(rt; names.add(name(&rt, "q1")), Ok(1));
    assert_eq!(rt; names.fresh().bytes(), b"q2".as_slice());
    assert!(rt; copy.is_subset(&names) && !names.is_subset(&copy));
    assert!(rt; names.is_subset_of_union(&copy, &names) && !names.is_subset_of_union(&copy, &copy));
    Ok(())
}

#[test]
fn reads_names(rt: HostRuntime) {
    for (word, is_name) in [
        ("Qubit_9", true),
        ("abcdefghijklmnop", true),
        ("abcdefghijklmnopq", false),
        ("", false),
        ("a-b", false),
    ] {
        assert_eq!(rt; Name::read(word.as_bytes()).is_some(), is_name, "{word}");
    }
}
