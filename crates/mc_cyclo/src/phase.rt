//! Phases between lists of elements.

ghost use Rattle.std.specs.Prelude.{◌≡◌, ◌↔◌, length, IsTrue};
ghost use Rattle.mc_cyclo.specs.Phase.{IsPhase, IsLeastPhase};

use crate::cyclo::Cyclo;
use mc_ring::{PhaseRing, Ring};

fn is_phase<const H: usize>(a: &[Cyclo<H>], b: &[Cyclo<H>], k: u32) -> bool
    requires { length a.now ≡ length b.now }
    ensures { IsTrue result ↔ IsPhase a.now b.now k }
{
    'entries: for i in 0..a.len() {
        if !a[i].same(&b[i].turn(k)) {
            return false;
        }
    }
    true
}

/// The least `k` below a whole turn, `2·H`, with `a` equal to `w^k` times `b`, entry by entry; `None` exactly where
/// there is none.
pub fn phase_between<const H: usize>(a: &[Cyclo<H>], b: &[Cyclo<H>]) -> Option<u32>
    requires { length a.now ≡ length b.now }
    ensures { IsLeastPhase H a.now b.now result }
{
    match b.first() {
        Some(entry) => entry.known(),
        None => return if H > 0 { Some(0) } else { None },
    }
    'phases: for k in 0..2 * H as u32 {
        if is_phase(a, b, k) {
            return Some(k);
        }
    }
    None
}
