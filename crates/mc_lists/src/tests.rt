use super::*;
use std::test::Fail;

#[test]
fn tells_lists(rt: HostRuntime) {
    for (numbers, due, is_one) in [
        ([1, 0, 3], [true, true, false, true], true),
        ([1, 0, 1], [true, true, false, true], false),
        ([1, 0, 3], [true, true, false, false], false),
        ([1, 0, 4], [true, true, false, false], false),
    ] {
        assert_eq!(rt; lists_once(&numbers, &due), is_one);
    }
}

#[test]
fn appends_where_told(rt: HostRuntime) -> Result<(), Fail> {
    let mut numbers = Vec::new(rt.alloc());
    push_if(&mut numbers, true, 4)?;
    push_if(&mut numbers, false, 5)?;
    assert_eq!(rt; numbers.as_slice(), [4].as_slice());
    Ok(())
}
