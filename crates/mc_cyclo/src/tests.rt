use super::*;
use mc_ring::{MatEnd, Matrix, PhaseRing, Ring};
use std::alloc::Global;

/// The greatest coordinate.
const MOST: i64 = 1 << 60;

fn of(c: [i64; 4]) -> Option<Cyclo<4>> {
    Cyclo::of(&c)
}

fn product(a: [i64; 4], b: [i64; 4]) -> Option<Cyclo<4>> {
    of(a)?.mul(&of(b)?)
}

/// `a + w^k·b`, through the bound alone.
fn plus_turned<R: PhaseRing>(a: &R, b: &R, k: u32) -> Option<R> {
    a.add(&b.turn(k))
}

// The products, turns and reductions were worked out in Python: products of lists modulo `w^4 + 1`, compared with
// complex numbers at `w = e^(iπ/4)`.

#[test]
fn multiplies(rt: HostRuntime) {
    for (a, b, want) in [
        ([1, 2, 3, 4], [5, 6, 7, 8], [-56, -36, 2, 60]),
        ([0, 1, 0, 0], [0, 0, 0, 1], [-1, 0, 0, 0]),
        ([0, 1, 0, -1], [0, 1, 0, -1], [2, 0, 0, 0]),
        ([1, 0, -1, 0], [1, 0, 1, 0], [2, 0, 0, 0]),
        (
            [1 << 30, 0, 0, 1],
            [1 << 30, 1, 0, 0],
            [MOST - 1, 1 << 30, 0, 1 << 30],
        ),
    ] {
        assert_eq!(rt; product(a, b), of(want));
    }
}

#[test]
fn turns(rt: HostRuntime) {
    let zero: Cyclo<4> = Cyclo::zero();
    let a = of([1, 2, 3, 4]).unwrap_or(zero);
    for (k, want) in [
        (0, [1, 2, 3, 4]),
        (1, [-4, 1, 2, 3]),
        (3, [-2, -3, -4, 1]),
        (4, [-1, -2, -3, -4]),
        (7, [2, 3, 4, -1]),
        (8, [1, 2, 3, 4]),
        (13, [4, -1, -2, -3]),
        (u32::MAX, [2, 3, 4, -1]),
    ] {
        assert_eq!(rt; plus_turned(&zero, &a, k), of(want), "{k}");
    }
    assert_eq!(rt; a.neg(), of([-1, -2, -3, -4]));
    assert_eq!(rt; a.coordinate(2), 3);
}

#[test]
fn ends_of_the_range(rt: HostRuntime) {
    assert_eq!(rt; of([0, -MOST, 0, MOST]).is_some(), true);
    assert_eq!(rt; of([0, 0, MOST + 1, 0]), None);
    assert_eq!(rt; of([0, 0, 0, i64::MIN]), None);
    assert_eq!(rt;
        product([MOST / 2, 0, 0, 0], [2, 0, 0, 0]),
        of([MOST, 0, 0, 0])
    );
    assert_eq!(rt; product([MOST, 0, 0, 0], [2, 0, 0, 0]), None);
    assert_eq!(rt;
        product([MOST, MOST, MOST, MOST], [-MOST, MOST, MOST, MOST]),
        None
    );
    let one: Cyclo<4> = Cyclo::one();
    for (c, want) in [(MOST - 1, Some(MOST)), (MOST, None)] {
        let sum = plus_turned(&of([c, 0, 0, 0]).unwrap_or(one), &one, 8);
        assert_eq!(rt; sum.map(|x| x.coordinate(0)), want);
    }
}

#[test]
fn reduces(rt: HostRuntime) {
    let one: Cyclo<4> = Cyclo::one();
    for (c, halves, num, least, text) in [
        ([2, 0, 0, 0], 2, [1, 0, 0, 0], 0, "1 0 0 0 / 0"),
        ([2, 0, 0, 0], 1, [0, 1, 0, -1], 0, "0 1 0 -1 / 0"),
        ([0, 1, 0, -1], 3, [1, 0, 0, 0], 2, "1 0 0 0 / 2"),
        ([1, 0, 0, 0], 4, [1, 0, 0, 0], 4, "1 0 0 0 / 4"),
        ([4, 4, 4, 4], 3, [0, 2, 2, 0], 0, "0 2 2 0 / 0"),
        ([0, 0, 0, 0], u32::MAX, [0, 0, 0, 0], 0, "0 0 0 0 / 0"),
    ] {
        let amp = Amp::reduced(of(c).unwrap_or(one), halves);
        assert_eq!(rt; Some(amp.num()), of(num), "{text}");
        assert_eq!(rt; amp.halves(), least, "{text}");
        let mut out = Vec::new(rt.alloc());
        assert_eq!(rt; amp.print(&mut out), Ok(()));
        assert_eq!(rt; out.as_slice(), text.as_bytes());
    }
}

#[test]
fn phases(rt: HostRuntime) {
    let zero: Cyclo<4> = Cyclo::zero();
    let one: Cyclo<4> = Cyclo::one();
    let (w, half) = (one.turn(1), one.turn(4));
    let a = [one, w, zero];
    let b = [one.turn(3), half, zero];
    let c = [one.turn(3), w, zero];
    assert_eq!(rt; phase_between(&b, &a), Some(3));
    assert_eq!(rt; phase_between(&a, &b), Some(5));
    assert_eq!(rt; phase_between(&c, &a), None);
    assert_eq!(rt; phase_between(&[zero], &[zero]), Some(0));
    assert_eq!(rt; phase_between::<4>(&[], &[]), Some(0));
}

/// The product of two matrices of one entry each.
fn entry_product(alloc: Global, a: Cyclo<4>, b: Cyclo<4>) -> Result<Cyclo<4>, MatEnd> {
    let Ok(mut left) = Matrix::zeros(alloc, 1, 1) else {
        return Err(MatEnd::Memory);
    };
    let Ok(mut right) = Matrix::zeros(alloc, 1, 1) else {
        return Err(MatEnd::Memory);
    };
    left.set(0, 0, a);
    right.set(0, 0, b);
    Ok(left.times(alloc, &right)?.at(0, 0))
}

#[test]
fn multiplies_matrices(rt: HostRuntime) {
    let alloc = rt.alloc();
    let zero: Cyclo<4> = Cyclo::zero();
    let w = of([0, 1, 0, 0]).unwrap_or(zero);
    let cube = of([0, 0, 0, 1]).unwrap_or(zero);
    assert_eq!(rt; entry_product(alloc, w, cube).ok(), of([-1, 0, 0, 0]));
    let most = of([MOST, 0, 0, 0]).unwrap_or(zero);
    let two = of([2, 0, 0, 0]).unwrap_or(zero);
    assert_eq!(rt; entry_product(alloc, most, two), Err(MatEnd::Range));
}

// The rows of sixteenths were worked out in Python: products of lists modulo `w^8 + 1`, compared
// with complex numbers at `w = e^(iπ/8)`.

fn of_sixteenths(c: [i64; 8]) -> Option<Cyclo<8>> {
    Cyclo::of(&c)
}

#[test]
fn multiplies_sixteenths(rt: HostRuntime) {
    let one: Cyclo<8> = Cyclo::one();
    let a = of_sixteenths([1, 2, 3, 4, 5, 6, 7, 8]).unwrap_or(one);
    let b = of_sixteenths([8, 7, 6, 5, 4, 3, 2, 1]).unwrap_or(one);
    assert_eq!(rt;
        a.mul(&b),
        of_sixteenths([-160, -110, -56, 0, 56, 110, 160, 204])
    );
    assert_eq!(rt;
        plus_turned(&b, &a, 11),
        of_sixteenths([14, 14, 14, 4, 2, 0, -2, -4])
    );
    assert_eq!(rt; phase_between(&[a.turn(13)], &[a]), Some(13));
}

#[test]
fn reduces_sixteenths(rt: HostRuntime) {
    let one: Cyclo<8> = Cyclo::one();
    for (c, halves, num, least, text) in [
        (
            [2, 0, 0, 0, 0, 0, 0, 0],
            1,
            [0, 0, 1, 0, 0, 0, -1, 0],
            0,
            "0 0 1 0 0 0 -1 0 / 0",
        ),
        (
            [0, 1, 0, 0, 0, 0, 0, 0],
            1,
            [0, 1, 0, 0, 0, 0, 0, 0],
            1,
            "0 1 0 0 0 0 0 0 / 1",
        ),
        (
            [1, 1, 0, 0, 1, 3, 0, 0],
            3,
            [0, 0, 1, 2, 0, 0, 0, 1],
            2,
            "0 0 1 2 0 0 0 1 / 2",
        ),
    ] {
        let amp = Amp::reduced(of_sixteenths(c).unwrap_or(one), halves);
        assert_eq!(rt; Some(amp.num()), of_sixteenths(num), "{text}");
        assert_eq!(rt; amp.halves(), least, "{text}");
        let mut out = Vec::new(rt.alloc());
        assert_eq!(rt; amp.print(&mut out), Ok(()));
        assert_eq!(rt; out.as_slice(), text.as_bytes());
    }
}
