//! Steps from one vector to the next.

ghost use Rattle.std.specs.Prelude.{◌≡◌, ◌≤◌, ◌^◌};
ghost use Rattle.mc_run.specs.Sources.{half_where, source, IsSmall};

use crate::place::{digit, with_digit, with_more};
use crate::source::Source;

/// What a gate or a command does to each entry. Qubits are told by the weights of their digits in a
/// place.
#[derive(Clone, Copy)]
pub(crate) enum Step {
    Input(bool),
    Prep,
    Ent { a: usize, b: usize },
    X { weight: usize, acts: bool },
    Z { weight: usize, acts: bool },
    J { weight: usize, steps: u32 },
    Meas { weight: usize, steps: u32 },
}

/// Half a turn, where the bit is 1.
pub(crate) fn half_where(half: u32, bit: bool) -> u32
    ensures { result ≡ half_where half bit }
{
    if bit { half } else { 0 }
}

impl Step {
    /// Where the entry at a place comes from.
    pub(crate) fn source(self, half: u32, i: usize) -> Source
        requires half { half ≤ 2 ^ 16 }
        requires small { IsSmall self }
        requires within { i ≤ 2 ^ 32 }
        ensures { result ≡ source half self i }
    {
        match self {
            Step::Input(bit) => {
                if bit == (i % 2 == 1) {
                    Source::Turned {
                        at: i / 2,
                        steps: 0,
                    }
                } else {
                    Source::Nought
                }
            }
            Step::Prep => Source::Turned {
                at: i / 2,
                steps: 0,
            },
            Step::Ent { a, b } => Source::Turned {
                at: i,
                steps: half_where(half, digit(a, i) & digit(b, i)),
            },
            Step::X { weight, acts } => Source::Turned {
                at: with_digit(weight, digit(weight, i) ^ acts, i),
                steps: 0,
            },
            Step::Z { weight, acts } => Source::Turned {
                at: i,
                steps: half_where(half, digit(weight, i) & acts),
            },
            Step::J { weight, steps } => Source::Sum {
                first: with_digit(weight, false, i),
                second: with_digit(weight, true, i),
                steps: steps + half_where(half, digit(weight, i)),
            },
            Step::Meas { weight, steps } => Source::Sum {
                first: with_more(weight, false, i),
                second: with_more(weight, true, i),
                steps,
            },
        }
    }
}
