//! Places in a vector, whose binary digits are the bits of the live qubits.

ghost use Rattle.std.specs.Prelude.{◌≡◌, ◌<◌, ◌≤◌, ◌^◌, All, length, true};
ghost use Rattle.mc_model.specs.Numbers.{is_member};
ghost use Rattle.mc_run.specs.Settings.{weight, place, digit, with_digit, with_more, place_spelled};
ghost use Rattle.mc_run.specs.Gates.{IsLiving};

/// Where a qubit stands among the live ones.
pub(crate) fn place_of(live: &[u16], q: u16) -> usize
    ensures { result ≡ place live.now q }
{
    live.iter().take_while(|r| **r != q).count()
}

pub(crate) fn two_to(n: usize) -> usize
    requires { n ≤ 32 }
    ensures { result ≡ 2 ^ n }
{
    1 << n
}

/// The weight of a live qubit's digit.
pub(crate) fn weight_of(live: &[u16], q: u16) -> usize
    requires member { is_member live.now q ≡ true }
    requires few { length live.now ≤ 32 }
    ensures weight { result ≡ weight live.now q }
    ensures positive { 0 < result }
    ensures within { result ≤ 2 ^ 32 }
{
    two_to(place_of(live, q))
}

/// Whether the digit of a weight is 1.
pub(crate) fn digit(weight: usize, i: usize) -> bool
    requires { 0 < weight }
    ensures { result ≡ digit weight i }
{
    i / weight % 2 == 1
}

/// The place with that digit as it is told.
pub(crate) fn with_digit(weight: usize, bit: bool, i: usize) -> usize
    requires positive { 0 < weight }
    requires low { weight ≤ 2 ^ 32 }
    requires within { i ≤ 2 ^ 33 }
    ensures { result ≡ with_digit weight bit i }
{
    let high = i / (2 * weight) * (2 * weight);
    if bit {
        high + weight + i % weight
    } else {
        high + i % weight
    }
}

/// The place with a further digit of that weight.
pub(crate) fn with_more(weight: usize, bit: bool, i: usize) -> usize
    requires positive { 0 < weight }
    requires low { weight ≤ 2 ^ 32 }
    requires within { i ≤ 2 ^ 33 }
    ensures { result ≡ with_more weight bit i }
{
    let high = i / weight * (2 * weight);
    if bit {
        high + weight + i % weight
    } else {
        high + i % weight
    }
}

/// The place that spells the last digits of a number on the listed qubits, the first by the most
/// significant.
pub(crate) fn place_spelled(live: &[u16], qubits: &[u16], y: usize) -> usize
    requires living { All (IsLiving live.now) qubits.now }
    requires few { length live.now ≤ 32 }
    requires short { length qubits.now ≤ 32 }
    ensures place { result ≡ place_spelled live.now qubits.now y }
    ensures within { result < 2 ^ length live.now }
{
    match qubits {
        [] => 0,
        [q, rest @ ..] => {
            let place = place_spelled(live, rest, y);
            with_digit(weight_of(live, *q), digit(two_to(rest.len()), y), place)
        }
    }
}
