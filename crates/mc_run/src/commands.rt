//! Patterns, command by command.

ghost use Rattle.std.specs.Prelude.{◌≡◌, ℕ, ◌+◌, ◌*◌, ◌<◌, ◌≤◌, ◌^◌, ◌%◌, ◌∷◌, cond};
ghost use Rattle.std.specs.Prelude.{All, IfOk};
ghost use Rattle.std.specs.Prelude.{length, map};
ghost use Rattle.mc_model.specs.Bits.{bits_of};
ghost use Rattle.mc_model.specs.Phase.{negated, measured_angle};
ghost use Rattle.mc_model.specs.Amplitude.{start, after};
ghost use Rattle.mc_pattern.specs.Commands.{plain_command};
ghost use Rattle.mc_run.specs.Exact.{exact, phases};
ghost use Rattle.mc_run.specs.Settings.{spelled, without};
ghost use Rattle.mc_run.specs.Sources.{IsStepped, IsSmall, half_where, Holds};
ghost use Rattle.mc_run.specs.Gates.{command_step, live_behind, IsReady, IsMeasuredLive};
ghost use Rattle.mc_run.specs.Gates.{IsLowBefore, IsLiving};

use crate::place::{place_of, weight_of};
use crate::state::{State, advanced, started};
use crate::step::{Step, half_where};
use mc_angle::Angle;
use mc_model::Memory;
use mc_pattern::{Command, Pattern};
use mc_ring::{PhaseRing, Ring};
use mc_signal::Outcomes;
use std::alloc::Global;

fn signed<const H: usize>(angle: Angle<H>, s: bool) -> Angle<H>
    ensures { result ≡ cond s (negated H angle.entry) angle.entry }
{
    if s { angle.neg() } else { angle }
}

/// The angle of a measurement, by the values of its signals.
fn measured_at<const H: usize>(angle: Angle<H>, s: bool, t: bool) -> Angle<H>
    ensures { result ≡ measured_angle H angle.entry s t % (2 * H) }
{
    let signed = signed(angle, s);
    let _steps = signed.steps();
    if t { signed.half_turn() } else { signed }
}

/// The turn of the amplitudes at which the measured qubit is 1.
fn turn_of<const H: usize>(angle: Angle<H>, s: bool, t: bool, outcome: bool) -> u32
    ensures turn { result ≡ negated H (measured_angle H angle.entry s t) + half_where H outcome }
    ensures small { result ≤ 2 ^ 16 }
{
    let back = measured_at(angle, s, t).neg();
    back.steps() as u32 + half_where(H as u32, outcome)
}

/// The step of a command on live qubits.
fn step_of<const H: usize>(live: &[u16], command: &Command<H>, outcomes: &Outcomes) -> Step
    requires ready { IsReady live.now (length outcomes.now) (plain_command command.now) }
    requires few { length live.now ≤ 32 }
    ensures step { result ≡ command_step H live.now (bits_of outcomes.now) (plain_command command.now) }
    ensures small { IsSmall result }
{
    match command {
        Command::Prep(_) => Step::Prep,
        Command::Ent(q, r) => Step::Ent {
            a: weight_of(live, *q),
            b: weight_of(live, *r),
        },
        Command::Meas { q, angle, s, t } => Step::Meas {
            weight: weight_of(live, *q),
            steps: turn_of(
                *angle,
                s.value(outcomes),
                t.value(outcomes),
                outcomes.get(*q),
            ),
        },
        Command::FixX { q, s } => Step::X {
            weight: weight_of(live, *q),
            acts: s.value(outcomes),
        },
        Command::FixZ { q, s } => Step::Z {
            weight: weight_of(live, *q),
            acts: s.value(outcomes),
        },
    }
}

/// The live qubits with one that is prepared.
fn with_qubit(mut live: Vec<u16>, q: u16) -> Result<Vec<u16>, Memory>
    ensures { IfOk result (λ next. next.items ≡ q ∷ live.items) }
{
    match live.insert(0, q) {
        Ok(()) => Ok(live),
        Err(_) => Err(Memory),
    }
}

/// The live qubits without one that is measured.
fn without_qubit(mut live: Vec<u16>, q: u16) -> Vec<u16>
    requires { IsLiving live.items q }
    ensures { result.items ≡ without live.items q }
{
    let place = place_of(&live, q);
    let _ = live.remove(place);
    live
}

/// The live qubits behind a command.
fn live_behind<const H: usize>(live: Vec<u16>, command: &Command<H>) -> Result<Vec<u16>, Memory>
    requires { IsMeasuredLive live.items (plain_command command.now) }
    ensures { IfOk result (λ next. next.items ≡ live_behind live.items (plain_command command.now)) }
{
    match command {
        Command::Prep(q) => with_qubit(live, *q),
        Command::Meas { q, .. } => Ok(without_qubit(live, *q)),
        _ => Ok(live),
    }
}

/// The state behind a command.
pub(crate) fn commanded<R: PhaseRing, const H: usize>(
    alloc: Global,
    state: State<R>,
    command: &Command<H>,
    outcomes: &Outcomes,
) -> Result<State<R>, Memory>
    requires permitted { R.IsPermitted }
    requires half { R.HALF ≤ 2 ^ 16 }
    requires steps { R.HALF ≡ H }
    requires ready { IsReady state.live.items (length outcomes.now) (plain_command command.now) }
    requires few { length state.live.items < 32 }
    requires long { length state.entries.items ≡ 2 ^ length state.live.items }
    requires low { IsLowBefore R.height_of (map R.seen state.entries.items) (plain_command command.now) }
    ensures live { IfOk result (λ next. next.live.items ≡ live_behind state.live.items (plain_command command.now)) }
    ensures long { IfOk result (λ next. length next.entries.items ≡
        2 ^ length (live_behind state.live.items (plain_command command.now))) }
    ensures stepped { IfOk result (λ next. IsStepped
        (exact R.nought R.unit R.sum_of R.negative_of R.turned_by R.HALF R.height_of) R.IsElement
        (command_step R.HALF state.live.items (bits_of outcomes.now) (plain_command command.now))
        (map R.seen state.entries.items) (map R.seen next.entries.items)) }
{
    let step = step_of(&state.live, command, outcomes);
    let live = live_behind(state.live, command)?;
    advanced(alloc, live, state.entries, step)
}

/// The state behind all commands, at these outcomes.
pub(crate) fn branch_state<R: PhaseRing, const H: usize>(
    alloc: Global,
    pattern: &Pattern<H>,
    outcomes: &Outcomes,
    b: usize,
) -> Result<State<R>, Memory>
    requires permitted { R.IsPermitted }
    requires half { R.HALF ≤ 2 ^ 16 }
    requires steps { R.HALF ≡ H }
    requires few { length pattern.now.names + pattern.now.inputs ≤ 16 }
    requires outcomes { length pattern.now.names ≤ length outcomes.now }
    ensures few { IfOk result (λ state. length state.live.items ≤ 16) }
    ensures living { IfOk result (λ state. All (IsLiving state.live.items) pattern.now.outputs) }
    ensures holds { IfOk result (λ state. (height : ℕ) × Holds
        (exact R.nought R.unit R.sum_of R.negative_of R.turned_by R.HALF R.height_of) R.IsElement
        state.live.items height
        (after (phases (exact R.nought R.unit R.sum_of R.negative_of R.turned_by R.HALF R.height_of))
        (bits_of outcomes.now) pattern.now.commands
        (start (phases (exact R.nought R.unit R.sum_of R.negative_of R.turned_by R.HALF R.height_of))
        pattern.now.inputs (bits_of (spelled pattern.now.inputs b))))
        (map R.seen state.entries.items)) }
{
    let _names = pattern.names();
    let mut state = started(alloc, pattern.inputs(), b)?;
    'commands: for command in pattern.commands() {
        state = commanded(alloc, state, command, outcomes)?;
    }
    Ok(state)
}
