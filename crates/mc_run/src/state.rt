//! The live qubits and the vector of their amplitudes.

ghost use Rattle.std.specs.Prelude.{◌≡◌, ℕ, ◌<◌, ◌≤◌, ◌^◌, [], ◌∷◌, IfOk, length, map};
ghost use Rattle.mc_model.specs.Bits.{bits_of};
ghost use Rattle.mc_model.specs.Amplitude.{start};
ghost use Rattle.mc_run.specs.Exact.{exact, phases};
ghost use Rattle.mc_run.specs.Settings.{spelled, numbers_below};
ghost use Rattle.mc_run.specs.Sources.{source, CanTake, IsLongFor, IsStepped, IsSmall};
ghost use Rattle.mc_run.specs.Sources.{IsGrowth, Holds};

use crate::place::{digit, two_to};
use crate::step::Step;
use crate::vector::behind;
use mc_model::Memory;
use mc_ring::{PhaseRing, Ring};
use std::alloc::Global;

/// The live qubits, the first by the least significant digit of a place, and the entry at each
/// place.
#[derive(Drop)]
pub(crate) struct State<R> {
    pub(crate) live: Vec<u16>,
    pub(crate) entries: Vec<R>,
}

/// The state behind a step that leaves these qubits.
pub(crate) fn advanced<R: PhaseRing>(
    alloc: Global,
    live: Vec<u16>,
    entries: Vec<R>,
    step: Step,
) -> Result<State<R>, Memory>
    requires permitted { R.IsPermitted }
    requires half { R.HALF ≤ 2 ^ 16 }
    requires small { IsSmall step }
    requires few { length live.items ≤ 32 }
    requires few_before { length entries.items ≤ 2 ^ 32 }
    requires fits { IsLongFor step (length entries.items) (2 ^ length live.items) }
    requires there { (i : ℕ) → i < 2 ^ length live.items →
        CanTake R.height_of (map R.seen entries.items) (source R.HALF step i) }
    ensures live { IfOk result (λ state. state.live.items ≡ live.items) }
    ensures long { IfOk result (λ state. length state.entries.items ≡ 2 ^ length live.items) }
    ensures stepped { IfOk result (λ state. IsStepped
        (exact R.nought R.unit R.sum_of R.negative_of R.turned_by R.HALF R.height_of) R.IsElement step
        (map R.seen entries.items) (map R.seen state.entries.items)) }
{
    let count = two_to(live.len());
    match behind(alloc, entries, step, count) {
        Ok(entries) => Ok(State { live, entries }),
        Err(_) => Err(Memory),
    }
}

/// The state with one more qubit.
pub(crate) fn grown<R: PhaseRing>(
    alloc: Global,
    state: State<R>,
    q: u16,
    step: Step,
) -> Result<State<R>, Memory>
    requires permitted { R.IsPermitted }
    requires half { R.HALF ≤ 2 ^ 16 }
    requires growth { IsGrowth step }
    requires few { length state.live.items < 32 }
    requires long { length state.entries.items ≡ 2 ^ length state.live.items }
    ensures live { IfOk result (λ next. next.live.items ≡ q ∷ state.live.items) }
    ensures long { IfOk result (λ next. length next.entries.items ≡ 2 ^ length (q ∷ state.live.items)) }
    ensures stepped { IfOk result (λ next. IsStepped
        (exact R.nought R.unit R.sum_of R.negative_of R.turned_by R.HALF R.height_of) R.IsElement step
        (map R.seen state.entries.items) (map R.seen next.entries.items)) }
{
    let mut live = state.live;
    match live.insert(0, q) {
        Ok(()) => advanced(alloc, live, state.entries, step),
        Err(_) => Err(Memory),
    }
}

/// The state of inputs at the bits of a number, of which the first input's is the most significant.
pub(crate) fn started<R: PhaseRing>(
    alloc: Global,
    inputs: u16,
    b: usize,
) -> Result<State<R>, Memory>
    requires permitted { R.IsPermitted }
    requires half { R.HALF ≤ 2 ^ 16 }
    requires few { inputs ≤ 16 }
    ensures live { IfOk result (λ state. state.live.items ≡ numbers_below inputs) }
    ensures holds { IfOk result (λ state. Holds
        (exact R.nought R.unit R.sum_of R.negative_of R.turned_by R.HALF R.height_of) R.IsElement
        (numbers_below inputs) 0
        (start (phases (exact R.nought R.unit R.sum_of R.negative_of R.turned_by R.HALF R.height_of))
        inputs (bits_of (spelled inputs b)))
        (map R.seen state.entries.items)) }
{
    let mut state = first_state(alloc)?;
    'inputs: for q in 0..inputs {
        let bit = digit(two_to((inputs - 1 - q) as usize), b);
        state = grown(alloc, state, q, Step::Input(bit))?;
    }
    Ok(state)
}

/// The state without qubits, at the amplitude 1.
fn first_state<R: PhaseRing>(alloc: Global) -> Result<State<R>, Memory>
    requires permitted { R.IsPermitted }
    ensures live { IfOk result (λ state. state.live.items ≡ []) }
    ensures one { IfOk result (λ state. map R.seen state.entries.items ≡ R.unit ∷ []) }
{
    let mut entries = Vec::new(alloc);
    match entries.push(R::one()) {
        Ok(()) => Ok(State {
            live: Vec::new(alloc),
            entries,
        }),
        Err(_) => Err(Memory),
    }
}
