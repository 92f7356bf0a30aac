//! What it says that no rule is broken.

ghost use Rattle.mc_cert.specs.Laws.{BoundRowsHold, BoundRulesAreExact, FlowRulesAreExact};
ghost use Rattle.mc_cert.specs.Laws.{RefuterRulesAreExact, ShortBoundsAreFew, StuckRulesAreExact};

/// Rows break no rule of flows exactly where they are a flow of the graph, one for each vertex that
/// is no output, and the stated depth is its depth.
pub fn flow_rules_are_exact()
    ensures { FlowRulesAreExact }
{}

/// Rows break no rule of refuters exactly where they are a refuter of the graph.
pub fn refuter_rules_are_exact()
    ensures { RefuterRulesAreExact }
{}

/// A set breaks no rule of stuck sets exactly where it is a stuck set of the graph.
pub fn stuck_rules_are_exact()
    ensures { StuckRulesAreExact }
{}

/// Rows break no rule of bounds exactly where they are a bound of the stated depth.
pub fn bound_rules_are_exact()
    ensures { BoundRulesAreExact }
{}

/// Rows that break no rule of bounds exclude every flow of lesser depth.
pub fn bound_rows_hold()
    ensures { BoundRowsHold }
{}

/// The rows of a bound whose layers have at most four digits are few.
pub fn short_bounds_are_few()
    ensures { ShortBoundsAreFew }
{}
