//! What is proved of lowered gate lists.

ghost use Rattle.mc_gates.specs.Laws.{LoweringKeepsTable, DoublingsArePowers, LoweringKeepsScale};
ghost use Rattle.mc_gates.specs.Laws.{LoweredCircuitsAreValid, LoweredGatesAreCounted};
ghost use Rattle.mc_gates.specs.Laws.{LoweredCircuitsAreHeld};

/// The table of a lowered circuit is a power of two times that of its gate list.
pub fn lowering_keeps_table()
    ensures { LoweringKeepsTable }
{}

/// An element that is doubled so many times is so large a power of two times the element.
pub fn doublings_are_powers()
    ensures { DoublingsArePowers }
{}

/// The power of the root of two grows by as much, so the physical tables are equal.
pub fn lowering_keeps_scale()
    ensures { LoweringKeepsScale }
{}

/// The circuit of a valid gate list is valid.
pub fn lowered_circuits_are_valid()
    ensures { LoweredCircuitsAreValid }
{}

/// The lowered gates are as many as the sum over the gates says.
pub fn lowered_gates_are_counted()
    ensures { LoweredGatesAreCounted }
{}

/// The circuit of a valid gate list is one that the code holds where its gates are at most 32,768.
pub fn lowered_circuits_are_held()
    ensures { LoweredCircuitsAreHeld }
{}
