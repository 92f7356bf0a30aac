//! Printing reports on all branches.

ghost use Rattle.std.specs.Prelude.{◌≡◌, ℕ, ◌++◌, ◌∷◌, [], ◌<◌, ◌^◌, IfOk, OnOk, length};
ghost use Rattle.std.specs.Prelude.{codes};
ghost use Rattle.std.specs.List.{flat_map};
ghost use Rattle.mc_model.specs.Numbers.{numbers_from};
ghost use Rattle.mc_run.specs.Settings.{spelled};
ghost use Rattle.mc_run.specs.Tables.{IsTable};
ghost use Rattle.mc_write.specs.Text.{line_text, text_of};
ghost use Rattle.mc_run_text.specs.Canonical.{bits_word, phase_word, table_at, branch_lines};
ghost use Rattle.mc_run_text.specs.Canonical.{is_any_apart, alike_line, report_text};

use crate::bits::add_digits;
use crate::print::{print_amplitudes, print_end};
use mc_model::Memory;
use mc_run::Report;
use mc_write::{add_number, add_word, end_line, start_line};
use std::alloc::Global;

fn print_header(text: &mut Vec<u8>) -> Result<(), Memory>
    ensures { OnOk result (text.new.items ≡ text.old.items ++ line_text (codes "branches" ∷ codes "1" ∷ [])) }
{
    start_line(text, b"branches")?;
    add_word(text, b"1")?;
    end_line(text)
}

fn add_phase(text: &mut Vec<u8>, phase: Option<u32>) -> Result<(), Memory>
    ensures { OnOk result (text.new.items ≡ text.old.items ++ 32 ∷ phase_word phase) }
{
    match phase {
        Some(steps) => add_number(text, steps),
        None => add_word(text, b"none"),
    }
}

/// The line of a branch, by its number and its phase.
fn print_name(
    text: &mut Vec<u8>,
    measured: u16,
    number: usize,
    phase: Option<u32>,
) -> Result<(), Memory>
    requires { measured < 64 }
    ensures { OnOk result (text.new.items ≡ text.old.items ++ line_text
        (codes "branch" ∷ bits_word (spelled measured number) ∷ codes "phase" ∷ phase_word phase ∷ [])) }
{
    start_line(text, b"branch")?;
    add_digits(text, measured, number)?;
    add_word(text, b"phase")?;
    add_phase(text, phase)?;
    end_line(text)
}

/// The lines of a branch.
fn print_one<const H: usize>(
    text: &mut Vec<u8>,
    report: &Report<H>,
    measured: u16,
    number: usize,
) -> Result<(), Memory>
    requires few { measured < 64 }
    requires within { number < length report.now.tables }
    ensures lines { OnOk result (text.new.items ≡
        text.old.items ++ text_of (branch_lines H measured report.now number)) }
    ensures long { OnOk result (IsTable (table_at report.now number)) }
{
    let table = report.branch(number);
    table.known();
    print_name(text, measured, number, report.phase(number))?;
    print_amplitudes(text, table)
}

fn print_branches<const H: usize>(
    text: &mut Vec<u8>,
    report: &Report<H>,
    measured: u16,
) -> Result<(), Memory>
    requires { length report.now.tables ≡ 2 ^ measured }
    ensures lines { OnOk result (text.new.items ≡ text.old.items ++ text_of
        (flat_map (branch_lines H measured report.now) (numbers_from 0 (2 ^ measured)))) }
    ensures long { OnOk result ((i : ℕ) → i < length report.now.tables → IsTable (table_at report.now i)) }
{
    'branches: for i in 0..report.branches() {
        print_one(text, report, measured, i)?;
    }
    Ok(())
}

/// Whether a branch has no phase.
fn is_any_apart<const H: usize>(report: &Report<H>) -> bool
    ensures { result ≡ is_any_apart (length report.now.tables) report.now }
{
    'branches: for i in 0..report.branches() {
        if report.phase(i).is_none() {
            return true;
        }
    }
    false
}

fn print_alike(text: &mut Vec<u8>, is_apart: bool) -> Result<(), Memory>
    ensures { OnOk result (text.new.items ≡ text.old.items ++ line_text (alike_line is_apart)) }
{
    start_line(text, b"alike")?;
    if is_apart {
        add_word(text, b"no")?;
    } else {
        add_word(text, b"yes")?;
    }
    end_line(text)
}

/// The text of a report on all branches of a pattern with so many measured qubits: for each branch
/// its outcomes, its phase and its amplitudes, then whether all are alike.
pub fn print_report<const H: usize>(
    alloc: Global,
    report: &Report<H>,
    measured: u16,
) -> Result<Vec<u8>, Memory>
    requires { length report.now.tables ≡ 2 ^ measured }
    ensures text { IfOk result (λ text. text.items ≡ report_text H measured report.now) }
    ensures long { IfOk result (λ text. (i : ℕ) → i < length report.now.tables → IsTable (table_at report.now i)) }
{
    let mut text = Vec::new(alloc);
    print_header(&mut text)?;
    print_branches(&mut text, report, measured)?;
    print_alike(&mut text, is_any_apart(report))?;
    print_end(&mut text)?;
    Ok(text)
}
