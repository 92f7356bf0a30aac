//! The odd neighbourhood of a set of vertices.
#![tactic(auto)]

mod odd;

pub use odd::odd_neighbours;
