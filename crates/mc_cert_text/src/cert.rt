//! Certificates.

use mc_cert::Bound;
use mc_graph::{GFlow, Refuter, Stuck};

/// What is said of the flows of a graph: a generalised flow (Browne, Kashefi, Mhalla and Perdrix 2007), a refuter, by which
/// there is none, a stuck set, by which there is no causal flow (Mhalla and Perdrix 2008), or a lower bound of the depth of
/// all. It need not hold.
#[derive(Drop)]
pub enum Cert {
    Flow(GFlow),
    NoFlow(Refuter),
    NoCausal(Stuck),
    Least(Bound),
}
