//! Signal shifting (Danos, Kashefi and Panangaden 2007): patterns without second signals, at other outcomes.
#![tactic(auto)]

mod laws;
mod shifted;
#[cfg(test)]
mod tests;

pub use laws::{
    has_one_shifted_form, new_outcomes_are_a_bijection, no_second_signals_no_shift,
    shift_keeps_maps, shifted_forms_are_valid,
};
pub use mc_pattern::Change;
pub use mc_standard::Standard;
pub use shifted::shift;
