use super::*;

#[test]
fn turns(rt: HostRuntime) {
    let angle: Angle<4> = Angle::of(-3);
    assert_eq!(rt; angle.steps(), 5);
    assert_eq!(rt; angle.neg(), Angle::of(3));
    assert_eq!(rt; angle.half_turn(), Angle::of(1));
    assert_eq!(rt; angle.add(&Angle::of(4)), Angle::of(1));
    assert_eq!(rt; Angle::<4>::of(8).neg().steps(), 0);
}

#[test]
fn turns_by_sixteenths(rt: HostRuntime) {
    let angle: Angle<8> = Angle::of(-3);
    assert_eq!(rt; angle.steps(), 13);
    assert_eq!(rt; angle.neg(), Angle::of(3));
    assert_eq!(rt; angle.half_turn(), Angle::of(5));
    assert_eq!(rt; angle.add(&Angle::of(4)), Angle::of(1));
    assert_eq!(rt; Angle::<8>::read(b"-17"), Some(Angle::of(15)));
}

#[test]
fn reads_words(rt: HostRuntime) {
    for (word, steps) in [
        ("007", Some(7)),
        ("-3", Some(5)),
        ("9999", Some(7)),
        ("-", None),
        ("--1", None),
        ("+1", None),
        ("10000", None),
        ("", None),
    ] {
        let angle: Option<Angle<4>> = Angle::read(word.as_bytes());
        assert_eq!(rt; angle.map(|angle| angle.steps()), steps, "{word}");
    }
    assert_eq!(rt; read_number(b"0120"), Some(120));
    assert_eq!(rt; read_number(b"-1"), None);
}
