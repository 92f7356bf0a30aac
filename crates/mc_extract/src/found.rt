//! What the finder holds of a vertex.

/// Whether the vertex is left, the rounds at whose start it was left, and what took it.
#[derive(Clone, Copy, Debug, PartialEq, Eq)]
pub struct Found {
    pub left: bool,
    pub layer: u16,
    pub next: u16,
}
