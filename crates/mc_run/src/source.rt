//! Where the entries of a vector come from.

/// What an entry of the next vector is, by the places of the vector before.
#[derive(Clone, Copy)]
pub(crate) enum Source {
    Nought,
    Turned {
        at: usize,
        steps: u32,
    },
    Sum {
        first: usize,
        second: usize,
        steps: u32,
    },
}
