//! Operations.

/// An operation on wires by their numbers: Hadamard, the Pauli gates X and Z, the roots S and T of Z with their inverses,
/// controlled X and Z, the exchange of two wires, and X with two controls (Toffoli 1980).
#[derive(Clone, Copy, Debug, PartialEq, Eq)]
pub enum Op {
    H(u16),
    X(u16),
    Z(u16),
    S(u16),
    Sdg(u16),
    T(u16),
    Tdg(u16),
    Cx {
        control: u16,
        target: u16,
    },
    Cz {
        a: u16,
        b: u16,
    },
    Swap {
        a: u16,
        b: u16,
    },
    Ccx {
        first: u16,
        second: u16,
        target: u16,
    },
}
