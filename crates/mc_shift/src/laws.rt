//! What is proved of shifted forms.

ghost use Rattle.mc_model.specs.Pattern.{Pattern};
ghost use Rattle.mc_model.specs.Valid.{IsValidPattern};
ghost use Rattle.mc_model.specs.Shift.{IsShiftedForm};
ghost use Rattle.mc_shift.specs.Shifted.{shifted_form};
ghost use Rattle.mc_shift.specs.Laws.{HasOneShiftedForm, NewOutcomesAreABijection};
ghost use Rattle.mc_shift.specs.Laws.{NoSecondSignalsNoShift, ShiftKeepsMaps, ShiftedFormsAreValid};

/// At the changed outcomes the shifted form of a valid pattern has the branch map of the pattern.
pub fn shift_keeps_maps()
    ensures { ShiftKeepsMaps }
{}

/// A valid pattern has one shifted form, which comes of putting signals in for qubits.
pub fn has_one_shifted_form()
    ensures one { HasOneShiftedForm }
    ensures made { (p : Pattern) → IsValidPattern p → IsShiftedForm p (shifted_form p) }
{}

/// The change of outcomes of a valid pattern reaches all outcomes, each from one.
pub fn new_outcomes_are_a_bijection()
    ensures { NewOutcomesAreABijection }
{}

/// The shifted form of a valid pattern is valid, has no second signals, and keeps the scale.
pub fn shifted_forms_are_valid()
    ensures { ShiftedFormsAreValid }
{}

/// A valid pattern without second signals is its own shifted form, and its change is empty.
pub fn no_second_signals_no_shift()
    ensures { NoSecondSignalsNoShift }
{}
