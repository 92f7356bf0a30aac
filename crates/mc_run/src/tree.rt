//! All branches of a pattern, each command once for those that have not parted yet.

ghost use Rattle.std.specs.Prelude.{◌≡◌, ℕ, ◌+◌, ◌*◌, ◌<◌, ◌≤◌, ◌^◌, [], ◌∷◌, IfOk, OnOk};
ghost use Rattle.std.specs.Prelude.{IsTrue};
ghost use Rattle.std.specs.Prelude.{MatchOption, ℤ, List, length, map};
ghost use Rattle.mc_model.specs.Bits.{bits_of};
ghost use Rattle.mc_model.specs.Steps.{is_permitted};
ghost use Rattle.mc_model.specs.Signals.{Signal};
ghost use Rattle.mc_model.specs.Pattern.{Meas, measured_order};
ghost use Rattle.mc_model.specs.Ring.{ring};
ghost use Rattle.mc_model.specs.Amplitude.{Amps, branch_map, pattern_scale};
ghost use Rattle.mc_pattern.specs.Patterns.{measured_count};
ghost use Rattle.mc_run.specs.Sources.{entry};
ghost use Rattle.mc_run.specs.Tables.{IsTableOf};
ghost use Rattle.mc_pattern.specs.Commands.{plain_command};
ghost use Rattle.mc_run.specs.Exact.{exact};
ghost use Rattle.mc_run.specs.Reports.{outcomes_of};
ghost use Rattle.mc_run.specs.Branches.{CommandsLeft, AreColumns, AreAllColumns};

use crate::branch::count_halves;
use crate::column::column;
use crate::commands::commanded;
use crate::place::two_to;
use crate::state::{State, started};
use crate::table::Table;
use mc_cyclo::Cyclo;
use mc_model::Memory;
use mc_pattern::{Command, Pattern};
use mc_ring::{PhaseRing, Ring};
use mc_signal::Outcomes;
use std::alloc::Global;

/// The same state once more.
fn copied<R: PhaseRing>(alloc: Global, state: &State<R>) -> Result<State<R>, Memory>
    ensures live { IfOk result (λ copy. copy.live.items ≡ state.now.live.items) }
    ensures entries { IfOk result (λ copy. copy.entries.items ≡ state.now.entries.items) }
{
    let mut live = Vec::new(alloc);
    let mut entries = Vec::new(alloc);
    if live.extend_from_slice(&state.live).is_err() {
        return Err(Memory);
    }
    if entries.extend_from_slice(&state.entries).is_err() {
        return Err(Memory);
    }
    Ok(State { live, entries })
}

/// The qubit that a command measures, where it measures one.
fn measured_qubit<const H: usize>(command: &Command<H>) -> Option<u16>
    ensures { MatchOption result (measured_order (plain_command command.now ∷ []) ≡ [])
        (λ q. (a : ℕ) × (s : Signal) × (t : Signal) × (plain_command command.now ≡ Meas q a s t)) }
{
    match command {
        Command::Prep(_) => None,
        Command::Ent(..) => None,
        Command::Meas { q, .. } => Some(*q),
        Command::FixX { .. } => None,
        Command::FixZ { .. } => None,
    }
}

/// The columns of all branches that the commands part into, from the state before them.
pub(crate) fn columns<R: PhaseRing, const H: usize>(
    alloc: Global,
    pattern: &Pattern<H>,
    commands: &[Command<H>],
    state: State<R>,
    outcomes: &mut Outcomes,
) -> Result<Vec<R>, Memory>
    requires permitted { R.IsPermitted }
    requires half { R.HALF ≤ 2 ^ 16 }
    requires steps { R.HALF ≡ H }
    requires few { length pattern.now.names + pattern.now.inputs ≤ 16 }
    requires outcomes { length pattern.now.names ≤ length outcomes.old }
    requires here { (end : Amps (List ℤ)) × CommandsLeft
        (exact R.nought R.unit R.sum_of R.negative_of R.turned_by R.HALF R.height_of) R.IsElement
        (bits_of outcomes.old) pattern.now.inputs pattern.now.commands end
        (map plain_command commands.now) state.live.items (map R.seen state.entries.items) }
    ensures columns { IfOk result (λ columns. AreColumns
        (exact R.nought R.unit R.sum_of R.negative_of R.turned_by R.HALF R.height_of) R.IsElement
        (bits_of outcomes.old) pattern.now.inputs pattern.now.commands (map plain_command commands.now)
        pattern.now.outputs state.live.items (map R.seen state.entries.items)
        (map R.seen columns.items)) }
    ensures outcomes { OnOk result (outcomes.new ≡ outcomes.old) }
{
    let _names = pattern.names();
    match commands {
        [] => {
            let last = column(alloc, &state, pattern.outputs())?;
            Ok(last)
        }
        [command, rest @ ..] => {
            let Some(q) = measured_qubit(command) else {
                let next = commanded(alloc, state, command, outcomes)?;
                let more = columns(alloc, pattern, rest, next, outcomes)?;
                return Ok(more);
            };
            let other = copied(alloc, &state)?;
            let before = outcomes.get(q);
            outcomes.set(q, false);
            let low = commanded(alloc, state, command, outcomes)?;
            let mut first = columns(alloc, pattern, rest, low, outcomes)?;
            outcomes.set(q, true);
            let high = commanded(alloc, other, command, outcomes)?;
            let mut second = columns(alloc, pattern, rest, high, outcomes)?;
            outcomes.set(q, before);
            match first.append(&mut second) {
                Ok(()) => Ok(first),
                Err(_) => Err(Memory),
            }
        }
    }
}

/// The columns of all branches, for each setting of the inputs.
pub(crate) fn all_columns<const H: usize>(
    alloc: Global,
    pattern: &Pattern<H>,
) -> Result<Vec<Cyclo<H>>, Memory>
    requires permitted { IsTrue (is_permitted H) }
    requires few { length pattern.now.names + pattern.now.inputs ≤ 16 }
    ensures { IfOk result (λ entries. AreAllColumns H pattern.now (2 ^ pattern.now.inputs) entries.items) }
{
    let count = pattern.names().len();
    let inputs = pattern.inputs();
    let mut outcomes = Outcomes::new(alloc, count)?;
    let mut entries = Vec::new(alloc);
    'settings: for b in 0..two_to(inputs as usize) {
        let state: State<Cyclo<H>> = started(alloc, inputs, b)?;
        let mut next = columns(alloc, pattern, pattern.commands(), state, &mut outcomes)?;
        let Ok(()) = entries.append(&mut next) else {
            return Err(Memory);
        };
    }
    Ok(entries)
}

/// The column of a branch at a setting of the inputs.
fn column_at<const H: usize>(
    entries: &[Cyclo<H>],
    branches: usize,
    width: usize,
    i: usize,
    b: usize,
) -> &[Cyclo<H>]
    requires few { branches * width ≤ 2 ^ 32 }
    requires within { b * (branches * width) + (i * width + width) ≤ length entries.now }
    ensures long { length result.now ≡ width }
    ensures values { (y : ℕ) → y < width →
        entry result.now y ≡ entry entries.now (b * (branches * width) + (i * width + y)) }
{
    let start = b * (branches * width) + i * width;
    &entries[start..start + width]
}

/// The table of a branch by its number, from the columns of all branches.
pub(crate) fn table_of<const H: usize>(
    alloc: Global,
    pattern: &Pattern<H>,
    all: &[Cyclo<H>],
    i: usize,
) -> Result<Table<H>, Memory>
    requires permitted { IsTrue (is_permitted H) }
    requires few { length pattern.now.names + pattern.now.inputs + measured_count pattern.now ≤ 16 }
    requires columns { AreAllColumns H pattern.now (2 ^ pattern.now.inputs) all.now }
    requires within { i < 2 ^ measured_count pattern.now }
    ensures table { IfOk result (λ table. IsTableOf (length pattern.now.outputs) pattern.now.inputs
        (pattern_scale pattern.now) (branch_map (ring H) pattern.now (outcomes_of pattern.now i)) table) }
    ensures long { IfOk result (λ table. length table.entries ≡
        2 ^ pattern.now.inputs * 2 ^ length pattern.now.outputs) }
{
    let _names = pattern.names();
    let inputs = pattern.inputs();
    let outputs = pattern.outputs();
    let halves = count_halves(pattern.commands());
    let width = two_to(outputs.len());
    let branches = two_to(pattern.measured() as usize);
    let mut entries = Vec::new(alloc);
    'columns: for b in 0..two_to(inputs as usize) {
        let next = column_at(all, branches, width, i, b);
        let Ok(()) = entries.extend_from_slice(next) else {
            return Err(Memory);
        };
    }
    Ok(Table {
        outputs: outputs.len() as u16,
        inputs,
        halves,
        entries,
    })
}
