//! What a vertex has beside its neighbours.

use crate::fixed::Fixed;
use mc_angle::Angle;

/// A vertex's base angle, if it is measured, and its fixed corrections.
#[derive(Clone, Copy, Debug, PartialEq, Eq)]
pub(crate) struct Label<const H: usize> {
    pub(crate) angle: Option<Angle<H>>,
    pub(crate) fixed: Fixed,
}
