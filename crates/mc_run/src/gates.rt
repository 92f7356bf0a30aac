//! Circuits, gate by gate.

ghost use Rattle.std.specs.Prelude.{◌≡◌, ◌<◌, ◌≤◌, ◌^◌, IfOk, length, map};
ghost use Rattle.mc_model.specs.Bits.{bits_of};
ghost use Rattle.mc_model.specs.Amplitude.{start, after_gates, j_count};
ghost use Rattle.mc_model.specs.Pattern.{wires};
ghost use Rattle.mc_circuit.specs.Gates.{plain_gate};
ghost use Rattle.mc_run.specs.Exact.{exact, phases};
ghost use Rattle.mc_run.specs.Settings.{spelled, numbers_below};
ghost use Rattle.mc_run.specs.Sources.{IsStepped, IsSmall, Holds};
ghost use Rattle.mc_run.specs.Gates.{gate_step, IsGateReady, IsLowFor};

use crate::place::weight_of;
use crate::state::{State, advanced, grown, started};
use crate::step::Step;
use mc_circuit::{Circuit, Gate};
use mc_model::Memory;
use mc_ring::{PhaseRing, Ring};
use std::alloc::Global;

/// The step of a gate on live wires.
fn step_of<const H: usize>(live: &[u16], gate: &Gate<H>) -> Step
    requires ready { IsGateReady live.now (plain_gate gate.now) }
    requires few { length live.now ≤ 32 }
    ensures step { result ≡ gate_step live.now (plain_gate gate.now) }
    ensures small { IsSmall result }
{
    match *gate {
        Gate::J { wire, angle } => Step::J {
            weight: weight_of(live, wire),
            steps: angle.steps() as u32,
        },
        Gate::Cz { a, b } => Step::Ent {
            a: weight_of(live, a),
            b: weight_of(live, b),
        },
    }
}

/// The state behind a gate.
fn gated<R: PhaseRing, const H: usize>(
    alloc: Global,
    state: State<R>,
    gate: &Gate<H>,
) -> Result<State<R>, Memory>
    requires permitted { R.IsPermitted }
    requires half { R.HALF ≤ 2 ^ 16 }
    requires ready { IsGateReady state.live.items (plain_gate gate.now) }
    requires few { length state.live.items ≤ 32 }
    requires long { length state.entries.items ≡ 2 ^ length state.live.items }
    requires low { IsLowFor R.height_of (map R.seen state.entries.items) (plain_gate gate.now) }
    ensures live { IfOk result (λ next. next.live.items ≡ state.live.items) }
    ensures long { IfOk result (λ next. length next.entries.items ≡ length state.entries.items) }
    ensures stepped { IfOk result (λ next. IsStepped
        (exact R.nought R.unit R.sum_of R.negative_of R.turned_by R.HALF R.height_of) R.IsElement
        (gate_step state.live.items (plain_gate gate.now))
        (map R.seen state.entries.items) (map R.seen next.entries.items)) }
{
    let step = step_of(&state.live, gate);
    advanced(alloc, state.live, state.entries, step)
}

/// The state of inputs with the other wires prepared.
fn wired<R: PhaseRing>(alloc: Global, inputs: u16, count: u16, b: usize) -> Result<State<R>, Memory>
    requires permitted { R.IsPermitted }
    requires half { R.HALF ≤ 2 ^ 16 }
    requires inputs { inputs ≤ count }
    requires few { count ≤ 16 }
    ensures live { IfOk result (λ state. state.live.items ≡ numbers_below count) }
    ensures holds { IfOk result (λ state. Holds
        (exact R.nought R.unit R.sum_of R.negative_of R.turned_by R.HALF R.height_of) R.IsElement
        (numbers_below count) 0
        (start (phases (exact R.nought R.unit R.sum_of R.negative_of R.turned_by R.HALF R.height_of))
        inputs (bits_of (spelled inputs b)))
        (map R.seen state.entries.items)) }
{
    let mut state = started(alloc, inputs, b)?;
    'wires: for q in inputs..count {
        state = grown(alloc, state, q, Step::Prep)?;
    }
    Ok(state)
}

/// The state behind all gates, at an angle's steps in the ring.
pub(crate) fn circuit_state<R: PhaseRing, const H: usize>(
    alloc: Global,
    circuit: &Circuit<H>,
    b: usize,
) -> Result<State<R>, Memory>
    requires permitted { R.IsPermitted }
    requires half { R.HALF ≤ 2 ^ 16 }
    requires few { wires circuit.now ≤ 16 }
    requires low { j_count circuit.now.gates ≤ 60 }
    ensures live { IfOk result (λ state. state.live.items ≡ numbers_below (wires circuit.now)) }
    ensures holds { IfOk result (λ state. Holds
        (exact R.nought R.unit R.sum_of R.negative_of R.turned_by R.HALF R.height_of) R.IsElement
        (numbers_below (wires circuit.now)) 60
        (after_gates (phases (exact R.nought R.unit R.sum_of R.negative_of R.turned_by R.HALF R.height_of))
        circuit.now.gates
        (start (phases (exact R.nought R.unit R.sum_of R.negative_of R.turned_by R.HALF R.height_of))
        circuit.now.inputs (bits_of (spelled circuit.now.inputs b))))
        (map R.seen state.entries.items)) }
{
    let mut state = wired(alloc, circuit.inputs(), circuit.names().len(), b)?;
    'gates: for gate in circuit.gates() {
        state = gated(alloc, state, gate)?;
    }
    Ok(state)
}
