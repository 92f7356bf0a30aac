//! What is proved of derivations.

ghost use Rattle.mc_derivations.specs.Laws.{DerivationsStayShort, PlacesStaySmall, TracesAreJudgedOnce};

/// A derivation from at most 64 commands passes no list of more than 4,096, so that each of its
/// uses stands at one of so many places.
pub fn derivations_stay_short()
    ensures lists { DerivationsStayShort }
    ensures places { PlacesStaySmall }
{}

/// A list of uses that is no derivation of the standard form breaks one rule first.
pub fn traces_are_judged_once()
    ensures { TracesAreJudgedOnce }
{}
