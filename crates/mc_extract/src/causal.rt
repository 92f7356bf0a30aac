//! The answer of the finder.

use mc_graph::{GFlow, Stuck};

/// What a graph has: a causal flow, or vertices of which no causal flow corrects a first.
#[derive(Drop)]
pub enum Causal {
    Flow(GFlow),
    Stuck(Stuck),
}
