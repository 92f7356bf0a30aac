//! Tables of branches.

ghost use Rattle.std.specs.Prelude.{◌≡◌, ◌↔◌, ℕ, ◌+◌, ◌*◌, ◌^◌, ◌≤◌, [], ◌∷◌, IfOk, OnOk};
ghost use Rattle.std.specs.Prelude.{Err};
ghost use Rattle.std.specs.Prelude.{IsTrue, None, Some, length, map};
ghost use Rattle.mc_model.specs.Bits.{bits_of};
ghost use Rattle.mc_model.specs.Steps.{is_permitted};
ghost use Rattle.mc_model.specs.Ring.{ring};
ghost use Rattle.mc_model.specs.Amplitude.{branch_map, pattern_scale, halvings};
ghost use Rattle.mc_pattern.specs.Commands.{plain_command};
ghost use Rattle.mc_run.specs.Limits.{branch_limit};
ghost use Rattle.mc_run.specs.Tables.{IsTableOf};

use crate::column::column;
use crate::commands::branch_state;
use crate::limit::{RunEnd, passed};
use crate::place::two_to;
use crate::state::State;
use crate::table::Table;
use mc_cyclo::Cyclo;
use mc_model::Memory;
use mc_pattern::{Command, Pattern};
use mc_signal::Outcomes;
use std::alloc::Global;

/// The most commands of a pattern that is run.
pub(crate) const MOST_COMMANDS: u64 = 256;

/// 1, where the command prepares or measures, else 0.
#[tactic(auto, unfolding(mc_model::specs::Amplitude::halvings))]
fn halves_of<const H: usize>(command: &Command<H>) -> u32
    ensures halves { result ≡ halvings (plain_command command.now ∷ []) }
    ensures small { result ≤ 1 }
{
    match command {
        Command::Prep(_) => 1,
        Command::Ent(..) => 0,
        Command::Meas { .. } => 1,
        Command::FixX { .. } => 0,
        Command::FixZ { .. } => 0,
    }
}

/// How many commands prepare or measure.
pub(crate) fn count_halves<const H: usize>(commands: &[Command<H>]) -> u32
    requires { length commands.now ≤ 262_144 }
    ensures { result ≡ halvings (map plain_command commands.now) }
{
    let mut count = 0;
    'commands: for command in commands {
        count += halves_of(command);
    }
    count
}

/// The table of a branch of a pattern within the limits.
pub(crate) fn branch_table<const H: usize>(
    alloc: Global,
    pattern: &Pattern<H>,
    outcomes: &Outcomes,
) -> Result<Table<H>, Memory>
    requires permitted { IsTrue (is_permitted H) }
    requires few { length pattern.now.names + pattern.now.inputs ≤ 16 }
    requires outcomes { length pattern.now.names ≤ length outcomes.now }
    ensures table { IfOk result (λ table. IsTableOf (length pattern.now.outputs) pattern.now.inputs
        (pattern_scale pattern.now) (branch_map (ring H) pattern.now (bits_of outcomes.now)) table) }
    ensures long { IfOk result (λ table. length table.entries ≡
        2 ^ pattern.now.inputs * 2 ^ length pattern.now.outputs) }
{
    let _names = pattern.names();
    let inputs = pattern.inputs();
    let outputs = pattern.outputs();
    let halves = count_halves(pattern.commands());
    let mut entries = Vec::new(alloc);
    'columns: for b in 0..two_to(inputs as usize) {
        let state: State<Cyclo<H>> = branch_state(alloc, pattern, outcomes, b)?;
        let mut next = column(alloc, &state, outputs)?;
        let Ok(()) = entries.append(&mut next) else {
            return Err(Memory);
        };
    }
    Ok(Table {
        outputs: outputs.len() as u16,
        inputs,
        halves,
        entries,
    })
}

/// The table of the branch of a pattern in which the measurements have these outcomes: the
/// amplitudes that its commands make of each setting of the inputs, by the settings of the outputs
/// (Danos, Kashefi and Panangaden 2007). `Limit` comes exactly where qubits and inputs together are
/// more than 16, by the number 4, or else the commands are more than 256, by the number 5.
pub fn run_branch<const H: usize>(
    alloc: Global,
    pattern: &Pattern<H>,
    outcomes: &Outcomes,
) -> Result<Table<H>, RunEnd>
    requires outcomes { length pattern.now.names ≤ length outcomes.now }
    ensures table { IfOk result (λ table. IsTableOf (length pattern.now.outputs) pattern.now.inputs
        (pattern_scale pattern.now) (branch_map (ring H) pattern.now (bits_of outcomes.now)) table) }
    ensures limit { (which found : ℕ) → (result ≡ Err (RunEnd.Limit which found)) ↔
        (branch_limit pattern.now ≡ Some (which, found)) }
    ensures within { OnOk result (branch_limit pattern.now ≡ None) }
    ensures memory_last { result ≡ Err RunEnd.Memory → branch_limit pattern.now ≡ None }
{
    let size = pattern.names().len() + pattern.inputs();
    let count = pattern.commands().len();
    if let Some(end) = passed(size as u64, MOST_COMMANDS, count as u64) {
        return Err(end);
    }
    match branch_table(alloc, pattern, outcomes) {
        Ok(table) => Ok(table),
        Err(Memory) => Err(RunEnd::Memory),
    }
}
