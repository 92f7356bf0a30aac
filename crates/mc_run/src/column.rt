//! Columns of tables, one for each setting of the inputs.

ghost use Rattle.std.specs.Prelude.{◌≡◌, ℕ, ◌<◌, ◌≤◌, ◌^◌, All, IfOk, length, map};
ghost use Rattle.mc_run.specs.Settings.{place_spelled};
ghost use Rattle.mc_run.specs.Sources.{entry};
ghost use Rattle.mc_run.specs.Gates.{IsLiving};

use crate::place::{place_spelled, two_to};
use crate::state::State;
use mc_model::Memory;
use mc_ring::PhaseRing;
use std::alloc::Global;

/// The entries of a state by the bits of the outputs, of which the first is the most significant.
pub(crate) fn column<R: PhaseRing>(
    alloc: Global,
    state: &State<R>,
    outputs: &[u16],
) -> Result<Vec<R>, Memory>
    requires living { All (IsLiving state.now.live.items) outputs.now }
    requires few { length state.now.live.items ≤ 32 }
    requires short { length outputs.now ≤ 32 }
    requires long { length state.now.entries.items ≡ 2 ^ length state.now.live.items }
    ensures length { IfOk result (λ column. length column.items ≡ 2 ^ length outputs.now) }
    ensures values { IfOk result (λ column. (y : ℕ) → y < 2 ^ length outputs.now →
        entry (map R.seen column.items) y ≡
        entry (map R.seen state.now.entries.items) (place_spelled state.now.live.items outputs.now y)) }
{
    let mut column = Vec::new(alloc);
    'entries: for y in 0..two_to(outputs.len()) {
        let place = place_spelled(&state.live, outputs, y);
        let Ok(()) = column.push(state.entries[place]) else {
            return Err(Memory);
        };
    }
    Ok(column)
}
