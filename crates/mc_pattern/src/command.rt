//! Commands.

use mc_angle::Angle;
use mc_signal::Signal;

/// A command on qubits by their numbers (Danos, Kashefi and Panangaden 2007): prepare a qubit, entangle two, measure one at
/// an angle whose sign and half turn the signals `s` and `t` decide, correct by `X` or by `Z` where a signal is 1.
#[derive(Drop)]
pub enum Command<const H: usize> {
    Prep(u16),
    Ent(u16, u16),
    Meas {
        q: u16,
        angle: Angle<H>,
        s: Signal,
        t: Signal,
    },
    FixX {
        q: u16,
        s: Signal,
    },
    FixZ {
        q: u16,
        s: Signal,
    },
}
