//! Tables of circuits.

ghost use Rattle.std.specs.Prelude.{◌≡◌, ◌↔◌, ℕ, ◌+◌, ◌≤◌, IfOk, OnOk, Err, IsTrue, None, Some};
ghost use Rattle.std.specs.Prelude.{length, map};
ghost use Rattle.mc_model.specs.Steps.{is_permitted};
ghost use Rattle.mc_model.specs.Ring.{ring};
ghost use Rattle.mc_model.specs.Pattern.{wires};
ghost use Rattle.mc_model.specs.Amplitude.{circuit_table, circuit_scale, j_count};
ghost use Rattle.mc_circuit.specs.Gates.{plain_gate};
ghost use Rattle.mc_run.specs.Limits.{circuit_limit};
ghost use Rattle.mc_run.specs.Tables.{IsTableOf};

use crate::column::column;
use crate::gates::circuit_state;
use crate::limit::{RunEnd, passed};
use crate::place::two_to;
use crate::state::State;
use crate::table::Table;
use mc_circuit::{Circuit, Gate};
use mc_cyclo::Cyclo;
use mc_model::Memory;
use std::alloc::Global;

/// The most `J` gates of a circuit that is run.
const MOST_J: u64 = 60;

/// How many gates are `J`.
fn count_j<const H: usize>(gates: &[Gate<H>]) -> u32
    requires { length gates.now ≤ 32_768 }
    ensures { result ≡ j_count (map plain_gate gates.now) }
{
    let mut count = 0;
    'gates: for gate in gates {
        match gate {
            Gate::J { .. } => count += 1,
            Gate::Cz { .. } => {}
        }
    }
    count
}

/// The table of a circuit within the limits.
fn circuit_table<const H: usize>(
    alloc: Global,
    circuit: &Circuit<H>,
    turns: u32,
) -> Result<Table<H>, Memory>
    requires permitted { IsTrue (is_permitted H) }
    requires turns { turns ≡ j_count circuit.now.gates }
    requires few { wires circuit.now + circuit.now.inputs ≤ 16 }
    requires low { turns ≤ 60 }
    ensures { IfOk result (λ table. IsTableOf (length circuit.now.outputs) circuit.now.inputs
        (circuit_scale circuit.now) (circuit_table (ring H) circuit.now) table) }
{
    let count = circuit.names().len();
    let inputs = circuit.inputs();
    let outputs = circuit.out();
    let mut entries = Vec::new(alloc);
    'columns: for b in 0..two_to(inputs as usize) {
        let state: State<Cyclo<H>> = circuit_state(alloc, circuit, b)?;
        let mut next = column(alloc, &state, outputs)?;
        let Ok(()) = entries.append(&mut next) else {
            return Err(Memory);
        };
    }
    Ok(Table {
        outputs: outputs.len() as u16,
        inputs,
        halves: turns + (count - inputs) as u32,
        entries,
    })
}

/// The table of a circuit: the amplitudes that its gates make of each setting of the inputs, by the
/// settings of the outputs (Danos, Kashefi and Panangaden 2007). `Limit` comes exactly where wires
/// and inputs together are more than 16, by the number 4, or else the `J` gates are more than 60,
/// by the number 5.
pub fn run_circuit<const H: usize>(alloc: Global, circuit: &Circuit<H>) -> Result<Table<H>, RunEnd>
    ensures table { IfOk result (λ table. IsTableOf (length circuit.now.outputs) circuit.now.inputs
        (circuit_scale circuit.now) (circuit_table (ring H) circuit.now) table) }
    ensures limit { (which found : ℕ) → (result ≡ Err (RunEnd.Limit which found)) ↔
        (circuit_limit circuit.now ≡ Some (which, found)) }
    ensures within { OnOk result (circuit_limit circuit.now ≡ None) }
    ensures memory_last { result ≡ Err RunEnd.Memory → circuit_limit circuit.now ≡ None }
{
    let count = circuit.names().len();
    let turns = count_j(circuit.gates());
    if let Some(end) = passed((count + circuit.inputs()) as u64, MOST_J, turns as u64) {
        return Err(end);
    }
    match circuit_table(alloc, circuit, turns) {
        Ok(table) => Ok(table),
        Err(Memory) => Err(RunEnd::Memory),
    }
}
