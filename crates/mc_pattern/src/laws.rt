//! The rules of the builder are those of valid patterns.

ghost use Rattle.mc_pattern.specs.Laws.{RulesTellWhatFits, RulesTellOutputs};

/// A command breaks no rule exactly where it may stand behind the pattern so far.
pub fn rules_tell_what_fits()
    ensures { RulesTellWhatFits }
{}

/// Outputs break no rule exactly where they list each qubit once that is measured nowhere, and no other.
pub fn rules_tell_outputs()
    ensures { RulesTellOutputs }
{}
