//! Products, in numbers that are wide enough for every sum on the way.

ghost use Rattle.std.specs.Prelude.{◌≡◌, ◌^◌, ◌<◌, ◌≤◌, length, IsTrue, MatchOption, ◌+ℤ◌};
ghost use lib.IntN.{◌*ℤ◌, neg_ℤ};
ghost use Rattle.std.specs.Int.RustNames.{unsigned_abs};
ghost use Rattle.mc_model.specs.Ring.{plus, scaled, rotated, times, zeros};
ghost use Rattle.mc_model.specs.Height.{height, IsInRange};

use crate::coordinates::MOST;

/// `x·y + z`, of numbers that are not too large.
fn multiply_add(x: i64, y: i64, z: i128) -> i128
    requires low_x { unsigned_abs x ≤ 2 ^ 60 }
    requires low_y { unsigned_abs y ≤ 2 ^ 60 }
    requires low_z { unsigned_abs z ≤ 2 ^ 125 }
    ensures { result ≡ (x *ℤ y) +ℤ z }
{
    x as i128 * y as i128 + z
}

fn negative_of(x: i128) -> i128
    requires { unsigned_abs x ≤ 2 ^ 125 }
    ensures { result ≡ neg_ℤ x }
{
    -x
}

/// Multiplies by `w`: the last coordinate comes back as its negative.
fn turn_once(wide: &mut [i128])
    requires some { 0 < length wide.old }
    requires low { height wide.old ≤ 2 ^ 125 }
    ensures { wide.new ≡ rotated wide.old }
{
    wide.rotate_right(1);
    wide[0] = negative_of(wide[0]);
}

/// Adds `x` times the other coordinates.
fn add_scaled(wide: &mut [i128], x: i64, other: &[i64])
    requires alike { length wide.old ≡ length other.now }
    requires low { height wide.old ≤ 2 ^ 125 }
    requires low_factor { unsigned_abs x ≤ 2 ^ 60 }
    requires other_in_range { IsInRange other.now }
    ensures { wide.new ≡ plus (scaled x other.now) wide.old }
{
    for k in 0..wide.len() {
        wide[k] = multiply_add(x, other[k], wide[k]);
    }
}

/// Writes the product over zeros, by the last coordinate first: each further one turns what is there and adds.
pub fn multiply(a: &[i64], b: &[i64], wide: &mut [i128])
    requires some { 0 < length a.now }
    requires few { length a.now ≤ 8 }
    requires alike { length a.now ≡ length b.now }
    requires a_in_range { IsInRange a.now }
    requires b_in_range { IsInRange b.now }
    requires clear { wide.old ≡ zeros (length a.now) }
    ensures { wide.new ≡ times a.now b.now }
{
    for i in (0..a.len()).rev() {
        turn_once(wide);
        add_scaled(wide, a[i], b);
    }
}

/// The number, where it is in the range of a coordinate.
fn narrow_one(x: i128) -> Option<i64>
    ensures { MatchOption result (2 ^ 60 < unsigned_abs x) (λ y. (y ≡ x) × (unsigned_abs x ≤ 2 ^ 60)) }
{
    if x.unsigned_abs() <= MOST as u128 {
        Some(x as i64)
    } else {
        None
    }
}

/// Writes the coordinates, where each is in the range.
pub fn narrow(wide: &[i128], coordinates: &mut [i64]) -> bool
    requires alike { length wide.now ≡ length coordinates.old }
    ensures yes { IsTrue result → (coordinates.new ≡ wide.now) × IsInRange wide.now }
    ensures no { IsInRange wide.now → IsTrue result }
{
    for k in 0..wide.len() {
        match narrow_one(wide[k]) {
            Some(x) => coordinates[k] = x,
            None => return false,
        }
    }
    true
}
