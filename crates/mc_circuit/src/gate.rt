//! Gates.

use mc_angle::Angle;

/// A gate on wires by their numbers: `J` at an angle, or controlled-Z (Danos, Kashefi and Panangaden 2007).
#[derive(Clone, Copy, Debug, PartialEq, Eq)]
pub enum Gate<const H: usize> {
    J { wire: u16, angle: Angle<H> },
    Cz { a: u16, b: u16 },
}
