use super::*;
use mc_names::{Name, Names};
use std::test::Fail;

#[test]
fn writes_lines(rt: HostRuntime) -> Result<(), Fail> {
    let mut names = Names::new(rt.alloc());
    for word in ["a", "b", "c"] {
        let name = Name::read(word.as_bytes()).expect(&rt, "a name");
        names.add(name)?;
    }
    assert!(rt; names.len() == 3);
    let mut text = Vec::new(rt.alloc());
    start_line(&mut text, b"in")?;
    add_names_between(&mut text, &names, 1, 3)?;
    add_names(&mut text, &names, &[2, 0])?;
    add_name(&mut text, &names, 1)?;
    add_number(&mut text, 7)?;
    add_word(&mut text, b"s:")?;
    end_line(&mut text)?;
    assert_eq!(rt; text.as_slice(), b"in b c c a b 7 s:\n".as_slice());
    Ok(())
}
