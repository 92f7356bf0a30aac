//! Coordinates in place.

ghost use Rattle.std.specs.Prelude.{◌≡◌, ◌+◌, ◌^◌, ◌<◌, ◌≤◌, ◌↔◌, length, slice_index_or, IsTrue};
ghost use Rattle.std.specs.Prelude.{MatchOption, ◌+ℤ◌, ℤ, pos, List};
ghost use lib.IntN.{neg_ℤ};
ghost use Rattle.std.specs.Int.RustNames.{unsigned_abs};
ghost use Rattle.mc_model.specs.Ring.{plus, minus, rotations};
ghost use Rattle.mc_model.specs.Height.{height, IsInRange};

/// The greatest absolute value of a coordinate.
pub const MOST: u64 = 1 << 60;

/// Whether each coordinate is in the range.
pub fn is_in_range(coordinates: &[i64]) -> bool
    ensures { IsTrue result ↔ IsInRange coordinates.now }
{
    'coordinates: for x in coordinates {
        if x.unsigned_abs() > MOST {
            return false;
        }
    }
    true
}

fn sum_of(x: i64, y: i64) -> i64
    requires low_x { unsigned_abs x ≤ 2 ^ 60 }
    requires low_y { unsigned_abs y ≤ 2 ^ 60 }
    ensures { result ≡ x +ℤ y }
{
    x + y
}

fn negative_of(x: i64) -> i64
    requires { unsigned_abs x ≤ 2 ^ 60 }
    ensures { result ≡ neg_ℤ x }
{
    -x
}

/// The number of which this is twice; `None` where it is odd.
fn half_of(x: i64) -> Option<i64>
    requires { unsigned_abs x ≤ 2 ^ 61 }
    ensures { MatchOption result ((y : ℤ) → x ≡ y +ℤ y → ⊥) (λ y. (x ≡ y +ℤ y) × (unsigned_abs y ≤ 2 ^ 60)) }
{
    if x % 2 == 0 { Some(x / 2) } else { None }
}

/// Adds the other coordinates.
pub fn add_to(sum: &mut [i64], other: &[i64])
    requires alike { length sum.old ≡ length other.now }
    requires in_range { IsInRange sum.old }
    requires other_in_range { IsInRange other.now }
    ensures { sum.new ≡ plus sum.old other.now }
{
    for k in 0..sum.len() {
        sum[k] = sum_of(sum[k], other[k]);
    }
}

/// Makes the coordinates their negatives.
pub fn negate(coordinates: &mut [i64])
    requires { IsInRange coordinates.old }
    ensures { coordinates.new ≡ minus coordinates.old }
{
    for k in 0..coordinates.len() {
        coordinates[k] = negative_of(coordinates[k]);
    }
}

/// The coordinate at a place behind so many steps, of which there are no more than in half a turn.
fn turned_at(coordinates: &[i64], steps: usize, i: usize) -> i64
    requires few { steps ≤ length coordinates.now }
    requires within { i < length coordinates.now }
    requires in_range { IsInRange coordinates.now }
    ensures { result ≡ slice_index_or (rotations steps coordinates.now) i (pos 0) }
{
    if i < steps {
        negative_of(coordinates[coordinates.len() - steps + i])
    } else {
        coordinates[i - steps]
    }
}

/// Writes the coordinates behind so many steps.
fn turn_by_steps(coordinates: &[i64], steps: usize, turned: &mut [i64])
    requires few { steps ≤ length coordinates.now }
    requires alike { length turned.old ≡ length coordinates.now }
    requires in_range { IsInRange coordinates.now }
    ensures { turned.new ≡ rotations steps coordinates.now }
{
    for i in 0..coordinates.len() {
        turned[i] = turned_at(coordinates, steps, i);
    }
}

/// Writes the coordinates times `w^k`: what goes round comes back as its negative.
pub fn turn(coordinates: &[i64], k: u32, turned: &mut [i64])
    requires some { 0 < length coordinates.now }
    requires alike { length turned.old ≡ length coordinates.now }
    requires in_range { IsInRange coordinates.now }
    ensures { turned.new ≡ rotations k coordinates.now }
{
    let half = coordinates.len();
    let (half_turns, steps) = (k as usize / half, k as usize % half);
    turn_by_steps(coordinates, steps, turned);
    if half_turns % 2 == 1 {
        negate(turned);
    }
}

fn difference_of(x: i64, y: i64) -> i64
    requires low_x { unsigned_abs x ≤ 2 ^ 60 }
    requires low_y { unsigned_abs y ≤ 2 ^ 60 }
    ensures { result ≡ x +ℤ neg_ℤ y }
{
    x - y
}

/// Writes the sum with the other coordinates behind so many steps, and the difference.
pub fn cross(
    coordinates: &[i64],
    other: &[i64],
    steps: usize,
    sum: &mut [i64],
    difference: &mut [i64],
)
    requires few { steps ≤ length other.now }
    requires alike { length coordinates.now ≡ length other.now }
    requires sum_alike { length sum.old ≡ length other.now }
    requires difference_alike { length difference.old ≡ length other.now }
    requires low { height coordinates.now + height other.now ≤ 2 ^ 60 }
    ensures sum { sum.new ≡ plus coordinates.now (rotations steps other.now) }
    ensures difference { difference.new ≡ plus coordinates.now (minus (rotations steps other.now)) }
{
    for i in 0..coordinates.len() {
        let turned = turned_at(other, steps, i);
        sum[i] = sum_of(coordinates[i], turned);
        difference[i] = difference_of(coordinates[i], turned);
    }
}

/// Writes the halves, where each coordinate is even.
pub fn halve(twice: &[i64], halves: &mut [i64]) -> bool
    requires alike { length twice.now ≡ length halves.old }
    requires low { height twice.now ≤ 2 ^ 61 }
    ensures yes { IsTrue result → (twice.now ≡ plus halves.new halves.new) × IsInRange halves.new }
    ensures no { (a : List ℤ) → length a ≡ length twice.now → twice.now ≡ plus a a → IsTrue result }
{
    for k in 0..twice.len() {
        match half_of(twice[k]) {
            Some(x) => halves[k] = x,
            None => return false,
        }
    }
    true
}
