//! What is proved of bounds of depth.

ghost use Rattle.mc_least.specs.Laws.{ChosenBoundsAreUnique, ChosenBoundsExist};
ghost use Rattle.mc_least.specs.Laws.{ChosenFlowsAreEarliest};

/// A flow that gives each vertex its least layer has a bound of its own depth, whose sets are the
/// least that there are.
pub fn chosen_bounds_exist()
    ensures { ChosenBoundsExist }
{}

/// For the layers of a flow there is at most one bound whose sets are the least.
pub fn chosen_bounds_are_unique()
    ensures { ChosenBoundsAreUnique }
{}

/// The chosen flow of a graph has a chosen bound: it is a flow that gives each vertex its least layer.
pub fn chosen_flows_are_earliest()
    ensures { ChosenFlowsAreEarliest }
{}
