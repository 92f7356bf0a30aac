//! Runs and their texts.

ghost use Rattle.std.specs.Prelude.{◌≡◌, ◌↔◌, ℕ, IfOk, IfSome, OnOk, Err, MatchOption, None, Some};
ghost use Rattle.std.specs.Prelude.{length};
ghost use Rattle.mc_pattern.specs.Patterns.{measured_count};
ghost use Rattle.mc_run.specs.Limits.{circuit_limit, branch_limit, all_limit};
ghost use Rattle.mc_run_text.specs.Runs.{circuit_run, branch_run, all_runs};

use crate::outcomes::outcomes_in_order;
use crate::print::{print_branch, print_table};
use crate::report::print_report;
use mc_circuit::Circuit;
use mc_model::Memory;
use mc_pattern::Pattern;
use mc_run::{RunEnd, run_all, run_branch, run_circuit};
use std::alloc::Global;

/// The text of the table of a circuit: the amplitudes of its meaning (Danos, Kashefi and Panangaden
/// 2007), reduced. `Limit` comes exactly where wires and inputs together are more than 16, by the
/// number 4, or else the `J` gates are more than 60, by the number 5.
pub fn run_circuit_text<const H: usize>(
    alloc: Global,
    circuit: &Circuit<H>,
) -> Result<Vec<u8>, RunEnd>
    ensures text { IfOk result (λ text. text.items ≡ circuit_run H circuit.now) }
    ensures limit { (which found : ℕ) → (result ≡ Err (RunEnd.Limit which found)) ↔
        (circuit_limit circuit.now ≡ Some (which, found)) }
    ensures within { OnOk result (circuit_limit circuit.now ≡ None) }
    ensures memory_last { result ≡ Err RunEnd.Memory → circuit_limit circuit.now ≡ None }
{
    match run_circuit(alloc, circuit) {
        Ok(table) => match print_table(alloc, &table) {
            Ok(text) => Ok(text),
            Err(Memory) => Err(RunEnd::Memory),
        },
        Err(end) => Err(end),
    }
}

/// The most qubits and inputs of a branch together.
const MOST_SIZE: u16 = 16;

/// The most commands of a pattern that is run.
const MOST_COMMANDS: usize = 256;

/// The first limit that a branch passes, where there is one.
fn branch_end<const H: usize>(pattern: &Pattern<H>) -> Option<RunEnd>
    ensures limit { MatchOption result (branch_limit pattern.now ≡ None) (λ end. (which found : ℕ) →
        (end ≡ RunEnd.Limit which found) ↔ (branch_limit pattern.now ≡ Some (which, found))) }
    ensures told { IfSome result (λ end. end ≡ RunEnd.Memory → ⊥) }
{
    let size = pattern.names().len() + pattern.inputs();
    let count = pattern.commands().len();
    if size > MOST_SIZE {
        Some(RunEnd::Limit {
            which: 4,
            found: size as u64,
        })
    } else if count > MOST_COMMANDS {
        Some(RunEnd::Limit {
            which: 5,
            found: count as u64,
        })
    } else {
        None
    }
}

/// The text of the table of a branch within the limits.
fn branch_text<const H: usize>(
    alloc: Global,
    pattern: &Pattern<H>,
    outcomes: &[bool],
) -> Result<Vec<u8>, RunEnd>
    requires outcomes { length outcomes.now ≡ measured_count pattern.now }
    ensures text { IfOk result (λ text. text.items ≡ branch_run H pattern.now outcomes.now) }
    ensures limit { (which found : ℕ) → (result ≡ Err (RunEnd.Limit which found)) →
        (branch_limit pattern.now ≡ Some (which, found)) }
{
    let Ok(values) = outcomes_in_order(alloc, pattern, outcomes) else {
        return Err(RunEnd::Memory);
    };
    let table = match run_branch(alloc, pattern, &values) {
        Ok(table) => table,
        Err(end) => return Err(end),
    };
    match print_branch(alloc, &table, outcomes) {
        Ok(text) => Ok(text),
        Err(Memory) => Err(RunEnd::Memory),
    }
}

/// The text of the table of a branch of a pattern, by the outcomes in measuring order: the
/// amplitudes of the branch's map (Danos, Kashefi and Panangaden 2007), reduced. `Limit` comes
/// exactly where qubits and inputs together are more than 16, by the number 4, or else the commands
/// are more than 256, by the number 5.
pub fn run_branch_text<const H: usize>(
    alloc: Global,
    pattern: &Pattern<H>,
    outcomes: &[bool],
) -> Result<Vec<u8>, RunEnd>
    requires outcomes { length outcomes.now ≡ measured_count pattern.now }
    ensures text { IfOk result (λ text. text.items ≡ branch_run H pattern.now outcomes.now) }
    ensures limit { (which found : ℕ) → (result ≡ Err (RunEnd.Limit which found)) ↔
        (branch_limit pattern.now ≡ Some (which, found)) }
    ensures within { OnOk result (branch_limit pattern.now ≡ None) }
    ensures memory_last { result ≡ Err RunEnd.Memory → branch_limit pattern.now ≡ None }
{
    if let Some(end) = branch_end(pattern) {
        return Err(end);
    }
    branch_text(alloc, pattern, outcomes)
}

/// The text of the report on all branches of a pattern: of each its outcomes, the least phase from
/// the first branch, and the amplitudes of its map (Danos, Kashefi and Panangaden 2007), reduced;
/// then whether all are alike. `Limit` comes exactly where qubits, inputs and measured qubits
/// together are more than 16, by the number 4, or else the commands are more than 256, by the
/// number 5.
pub fn run_all_text<const H: usize>(alloc: Global, pattern: &Pattern<H>) -> Result<Vec<u8>, RunEnd>
    ensures text { IfOk result (λ text. text.items ≡ all_runs H pattern.now) }
    ensures limit { (which found : ℕ) → (result ≡ Err (RunEnd.Limit which found)) ↔
        (all_limit pattern.now ≡ Some (which, found)) }
    ensures within { OnOk result (all_limit pattern.now ≡ None) }
    ensures memory_last { result ≡ Err RunEnd.Memory → all_limit pattern.now ≡ None }
{
    match run_all(alloc, pattern) {
        Ok(report) => match print_report(alloc, &report, pattern.measured()) {
            Ok(text) => Ok(text),
            Err(Memory) => Err(RunEnd::Memory),
        },
        Err(end) => Err(end),
    }
}
