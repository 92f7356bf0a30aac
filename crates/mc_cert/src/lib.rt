//! Checkers of certificates: flows, refuters, stuck sets and bounds of depth, row by row.
#![tactic(auto)]

mod bound;
mod flow;
mod laws;
mod odd;
mod refuter;
mod rows;
mod stuck;
mod verdict;

pub use bound::check_bound;
pub use flow::check_flow;
pub use laws::{
    bound_rows_hold, bound_rules_are_exact, flow_rules_are_exact, refuter_rules_are_exact,
    short_bounds_are_few, stuck_rules_are_exact,
};
pub use refuter::check_refuter;
pub use rows::Bound;
pub use stuck::check_stuck;
pub use verdict::Verdict;
