//! The root of two by coordinates, each law on the contract of a function that does nothing.

ghost use Rattle.mc_cyclo.specs.RootLaws.{RootDividesEighths, RootDividesSixteenths, RootOfEighths};
ghost use Rattle.mc_cyclo.specs.RootLaws.{RootOfSixteenths};

/// The root of two times an element, and which elements it divides, where a step is an eighth of a
/// turn (Giles and Selinger 2013).
pub fn root_divides_eighths()
    ensures times { RootOfEighths }
    ensures divides { RootDividesEighths }
{}

/// The root of two times an element, and which elements it divides, where a step is a sixteenth of
/// a turn: those whose coordinates four apart differ by even numbers.
pub fn root_divides_sixteenths()
    ensures times { RootOfSixteenths }
    ensures divides { RootDividesSixteenths }
{}
