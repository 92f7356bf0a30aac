//! The rewriting rules and their uses.

/// The rules by which a list of commands is rewritten (Danos, Kashefi and Panangaden 2007).
#[derive(Clone, Copy, Debug, PartialEq, Eq)]
pub enum Rule {
    /// `X` passes an entangling of its qubit and leaves a `Z` on the other.
    XE,
    /// `Z` passes an entangling of its qubit.
    ZE,
    /// A measurement takes an `X` on its qubit into its signal `s`.
    XM,
    /// A measurement takes a `Z` on its qubit into its signal `t`.
    ZM,
    /// Two commands on different qubits change places.
    Swap,
    /// Two `X` or two `Z` on a qubit become one.
    Join,
    /// Two entanglings change places.
    EE,
    /// Two entanglings of the same qubits vanish.
    Cancel,
    /// `X` and `Z` on a qubit change places.
    XZ,
    /// The operands of an entangling change places.
    Turn,
    /// A correction whose signal is empty vanishes.
    DropEmpty,
}

/// A use of a rule: the place of the first command concerned, counted from 1.
#[derive(Clone, Copy, Debug, PartialEq, Eq)]
pub struct Use {
    pub place: u64,
    pub rule: Rule,
}
