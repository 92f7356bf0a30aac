//! Reports on all branches.

ghost use Rattle.std.specs.Prelude.{◌≡◌, ◌↔◌, ℕ, ◌+◌, ◌<◌, ◌≤◌, Option, IfOk, OnOk, Err, IsTrue};
ghost use Rattle.std.specs.Prelude.{None, Some, length, slice_index_or};
ghost use Rattle.mc_model.specs.Steps.{is_permitted};
ghost use Rattle.mc_pattern.specs.Patterns.{measured_count};
ghost use Rattle.mc_cyclo.specs.Phase.{IsLeastPhase};
ghost use Rattle.mc_run.specs.Limits.{all_limit};
ghost use Rattle.mc_run.specs.Tables.{TableValue};
ghost use Rattle.mc_run.specs.Reports.{IsReportOf};

use crate::branch::MOST_COMMANDS;
use crate::limit::{RunEnd, passed};
use crate::place::two_to;
use crate::table::Table;
use crate::tree::{all_columns, table_of};
use mc_cyclo::phase_between;
use mc_model::Memory;
use mc_pattern::Pattern;
use std::alloc::Global;
use std::marker::Model;

/// The tables of all branches of a pattern, by rising outcomes, and the phase by which each is the
/// first.
#[derive(Drop)]
pub struct Report<const H: usize> {
    tables: Vec<Table<H>>,
    phases: Vec<Option<u32>>,
}

impl<const H: usize> Model for Report<H> {
    ghost use Rattle.std.specs.Prelude.{IsTrue};
    ghost use Rattle.mc_model.specs.Steps.{is_permitted};
    ghost use Rattle.mc_run.specs.Reports.{ReportValue, IsReport};

    ghost Value = { ReportValue };

    ghost view = { λ r. record { tables = r.tables.items; phases = r.phases.items } };

    ghost invariant = { λ r. IsTrue (is_permitted H)
        × IsReport (record { tables = r.tables.items; phases = r.phases.items }) };
}

impl<const H: usize> Report<H> {
    /// How many branches there are.
    pub fn branches(&self) -> usize
        ensures { result ≡ length self.now.tables }
    {
        self.tables.len()
    }

    /// The table of a branch; the qubit that is measured first has the most significant bit of the
    /// number.
    pub fn branch(&self, i: usize) -> &Table<H>
        requires { i < length self.now.tables }
        ensures { (d : TableValue) → slice_index_or self.now.tables i d ≡ result.now }
    {
        &self.tables[i]
    }

    /// The least `k` for which the branch is `w^k` times the first one, entry by entry; `None`
    /// where there is none.
    pub fn phase(&self, i: usize) -> Option<u32>
        requires { i < length self.now.tables }
        ensures { (d : Option ℕ) → slice_index_or self.now.phases i d ≡ result }
    {
        self.phases[i]
    }
}

/// The phase by which a table is the first one.
fn phase_of<const H: usize>(table: &Table<H>, first: &Table<H>) -> Option<u32>
    requires permitted { IsTrue (is_permitted H) }
    requires alike { length table.now.entries ≡ length first.now.entries }
    ensures { IsLeastPhase H table.now.entries first.now.entries result }
{
    let entries = table.entries();
    let others = first.entries();
    phase_between(entries, others)
}

/// The phase by which each table is the first one.
fn phases_of<const H: usize>(alloc: Global, tables: &[Table<H>]) -> Result<Vec<Option<u32>>, Memory>
    requires permitted { IsTrue (is_permitted H) }
    requires alike { (i : ℕ) (d : TableValue) → i < length tables.now →
        length (slice_index_or tables.now i d).entries ≡ length (slice_index_or tables.now 0 d).entries }
    ensures long { IfOk result (λ phases. length phases.items ≡ length tables.now) }
    ensures phases { IfOk result (λ phases. (i : ℕ) (d : TableValue) (e : Option ℕ) →
        i < length tables.now → IsLeastPhase H (slice_index_or tables.now i d).entries
        (slice_index_or tables.now 0 d).entries (slice_index_or phases.items i e)) }
{
    let mut phases = Vec::new(alloc);
    'tables: for i in 0..tables.len() {
        let phase = phase_of(&tables[i], &tables[0]);
        let Ok(()) = phases.push(phase) else {
            return Err(Memory);
        };
    }
    Ok(phases)
}

/// The report on a pattern within the limits.
fn all_branches<const H: usize>(alloc: Global, pattern: &Pattern<H>) -> Result<Report<H>, Memory>
    requires permitted { IsTrue (is_permitted H) }
    requires few { length pattern.now.names + pattern.now.inputs + measured_count pattern.now ≤ 16 }
    ensures { IfOk result (λ report. IsReportOf H pattern.now report) }
{
    let all = all_columns(alloc, pattern)?;
    let mut tables = Vec::new(alloc);
    'branches: for i in 0..two_to(pattern.measured() as usize) {
        let table = table_of(alloc, pattern, &all, i)?;
        let Ok(()) = tables.push(table) else {
            return Err(Memory);
        };
    }
    let phases = phases_of(alloc, &tables)?;
    Ok(Report { tables, phases })
}

/// The tables of all branches of a pattern, with their phases. `Limit` comes exactly where qubits,
/// inputs and measured qubits together are more than 16, by the number 4, or else the commands are
/// more than 256, by the number 5.
pub fn run_all<const H: usize>(alloc: Global, pattern: &Pattern<H>) -> Result<Report<H>, RunEnd>
    ensures report { IfOk result (λ report. IsReportOf H pattern.now report) }
    ensures limit { (which found : ℕ) → (result ≡ Err (RunEnd.Limit which found)) ↔
        (all_limit pattern.now ≡ Some (which, found)) }
    ensures within { OnOk result (all_limit pattern.now ≡ None) }
    ensures memory_last { result ≡ Err RunEnd.Memory → all_limit pattern.now ≡ None }
{
    let size = pattern.names().len() + pattern.inputs() + pattern.measured();
    let count = pattern.commands().len();
    if let Some(end) = passed(size as u64, MOST_COMMANDS, count as u64) {
        return Err(end);
    }
    match all_branches(alloc, pattern) {
        Ok(report) => Ok(report),
        Err(Memory) => Err(RunEnd::Memory),
    }
}
