//! Fixed corrections.

/// Whether there is a fixed `X`, and a fixed `Z`: corrections that act whatever the outcomes.
#[derive(Clone, Copy, Debug, PartialEq, Eq)]
pub struct Fixed {
    pub x: bool,
    pub z: bool,
}
