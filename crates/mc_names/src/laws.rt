//! What is proved of fresh names.

ghost use Rattle.mc_names.specs.Laws.{FreshNamesAreFresh};

/// The name that is computed has the least positive number that is not held.
pub fn fresh_names_are_fresh()
    ensures { FreshNamesAreFresh }
{}
