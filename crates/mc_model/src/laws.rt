//! Laws of the definitions, each on the contract of a function that does nothing.

ghost use Rattle.mc_model.specs.Laws.{ElementsAreARing, RootSquaresToTwo, AmplitudesByLastCommand};
ghost use Rattle.mc_model.specs.Laws.{ChosenFlowsAreFlows, DepthBoundsHold, EdgesCountTwice};
ghost use Rattle.mc_model.specs.Laws.{RefutersExcludeFlows, StuckSetsExcludeCausalFlows};

/// The amplitude ring is a commutative ring with `w ^ half = -1`.
pub fn elements_are_a_ring()
    ensures { ElementsAreARing }
{}

/// The root of two, squared, is two.
pub fn root_squares_to_two()
    ensures { RootSquaresToTwo }
{}

/// Amplitudes may be read from a list's last command (Danos, Kashefi and Panangaden 2007).
pub fn amplitudes_by_last_command()
    ensures { AmplitudesByLastCommand }
{}

/// The edges between two sets of vertices are as many from either side.
pub fn edges_count_twice()
    ensures { EdgesCountTwice }
{}

/// A refuter excludes every generalised flow (of Browne, Kashefi, Mhalla and Perdrix 2007).
pub fn refuters_exclude_flows()
    ensures { RefutersExcludeFlows }
{}

/// A stuck set excludes every causal flow (of Mhalla and Perdrix 2008).
pub fn stuck_sets_exclude_causal_flows()
    ensures { StuckSetsExcludeCausalFlows }
{}

/// A bound of depth excludes every flow of lesser depth.
pub fn depth_bounds_hold()
    ensures { DepthBoundsHold }
{}

/// The chosen flow is a flow.
pub fn chosen_flows_are_flows()
    ensures { ChosenFlowsAreFlows }
{}
