//! Patterns side by side.

ghost use Rattle.std.specs.Prelude.{◌≡◌, ◌↔◌, ℕ, IfOk, OnOk, Err, IfSome, MatchOption, Some, None};
ghost use Rattle.std.specs.Prelude.{map};
ghost use Rattle.mc_pattern.specs.Commands.{plain_command};
ghost use Rattle.mc_compose.specs.Composed.{side_by_side};
ghost use Rattle.mc_compose.specs.Limits.{pattern_limit};
ghost use Rattle.mc_compose.specs.Maps.{MultipliesEntries};

use crate::laws::{sides_are_patterns, sides_multiply};
use crate::limit::{ComposeEnd, passed};
use crate::naming::inputs_first;
use crate::placing::{push_placed, push_qubits, row};
use mc_model::Memory;
use mc_pattern::{Command, Names, Pattern};
use std::alloc::Global;

/// The first limit that the two patterns side by side pass, where they pass one.
fn limit_of<const H: usize>(first: &Pattern<H>, second: &Pattern<H>) -> Option<ComposeEnd>
    ensures limit { MatchOption result (pattern_limit (side_by_side first.now second.now) ≡ None)
        (λ end. (which found : ℕ) → (end ≡ ComposeEnd.Limit which found) ↔
        (pattern_limit (side_by_side first.now second.now) ≡ Some (which, found))) }
    ensures told { IfSome result (λ end. end ≡ ComposeEnd.Memory → ⊥) }
{
    let qubits = first.names().len() + second.names().len();
    let commands = first.commands().len() + second.commands().len();
    passed(qubits as u64, commands as u64)
}

/// The names of the patterns side by side.
fn names_of<const H: usize>(
    alloc: Global,
    first: &Pattern<H>,
    second: &Pattern<H>,
) -> Result<Names, Memory>
    requires { pattern_limit (side_by_side first.now second.now) ≡ None }
    ensures { IfOk result (λ names. names ≡ (side_by_side first.now second.now).names) }
{
    let (left, right) = (first.inputs(), second.inputs());
    let names = inputs_first(alloc, first.names(), left, second.names(), right)?;
    Ok(names)
}

/// The commands of the patterns side by side.
fn commands_of<const H: usize>(
    alloc: Global,
    first: &Pattern<H>,
    second: &Pattern<H>,
) -> Result<Vec<Command<H>>, Memory>
    requires { pattern_limit (side_by_side first.now second.now) ≡ None }
    ensures { IfOk result (λ commands. map plain_command commands.items ≡
        (side_by_side first.now second.now).commands) }
{
    // the proof needs that the second is valid
    let _second = second.names();
    let (count, left, right) = (first.names().len(), first.inputs(), second.inputs());
    let mut commands = Vec::new(alloc);
    let ours = row(alloc, 0, left)?;
    push_placed(alloc, &ours, left + right, first.commands(), &mut commands)?;
    let theirs = row(alloc, left, right)?;
    push_placed(
        alloc,
        &theirs,
        count + right,
        second.commands(),
        &mut commands,
    )?;
    Ok(commands)
}

/// The outputs of the patterns side by side.
fn outputs_of<const H: usize>(
    alloc: Global,
    first: &Pattern<H>,
    second: &Pattern<H>,
) -> Result<Vec<u16>, Memory>
    requires { pattern_limit (side_by_side first.now second.now) ≡ None }
    ensures { IfOk result (λ outputs. outputs.items ≡ (side_by_side first.now second.now).outputs) }
{
    // the proof needs that the second is valid
    let _second = second.names();
    let (count, left, right) = (first.names().len(), first.inputs(), second.inputs());
    let mut outputs = Vec::new(alloc);
    let ours = row(alloc, 0, left)?;
    push_qubits(&ours, left + right, first.outputs(), &mut outputs)?;
    let theirs = row(alloc, left, right)?;
    push_qubits(&theirs, count + right, second.outputs(), &mut outputs)?;
    Ok(outputs)
}

/// The two patterns side by side within the limits.
fn side_by_side_within<const H: usize>(
    alloc: Global,
    first: &Pattern<H>,
    second: &Pattern<H>,
) -> Result<Pattern<H>, Memory>
    requires { pattern_limit (side_by_side first.now second.now) ≡ None }
    ensures { IfOk result (λ pattern. pattern ≡ side_by_side first.now second.now) }
{
    // the proof needs that both are valid
    let _first = first.names();
    let _second = second.names();
    sides_are_patterns();
    let names = names_of(alloc, first, second)?;
    let commands = commands_of(alloc, first, second)?;
    let outputs = outputs_of(alloc, first, second)?;
    Ok(Pattern::of(names, first.inputs() + second.inputs(), commands, outputs))
}

/// Both patterns as one, the first's inputs, commands and outputs before the second's. Whatever the
/// outcomes, the entries of its branch map are the products of theirs.
///
/// # Errors
///
/// `Limit` exactly where the qubits of the result are more than 256, by the number 2, or else its
/// commands are more than 262,144, by the number 3. `Memory`, which stands last, is want of memory.
pub fn beside<const H: usize>(
    alloc: Global,
    first: &Pattern<H>,
    second: &Pattern<H>,
) -> Result<Pattern<H>, ComposeEnd>
    ensures pattern { IfOk result (λ pattern. pattern ≡ side_by_side first.now second.now) }
    ensures maps { IfOk result (λ pattern. MultipliesEntries H first.now second.now pattern) }
    ensures limit { (which found : ℕ) → (result ≡ Err (ComposeEnd.Limit which found)) ↔
        (pattern_limit (side_by_side first.now second.now) ≡ Some (which, found)) }
    ensures within { OnOk result (pattern_limit (side_by_side first.now second.now) ≡ None) }
    ensures memory_last { result ≡ Err ComposeEnd.Memory →
        pattern_limit (side_by_side first.now second.now) ≡ None }
{
    // the proof needs that both are valid
    let _first = first.names();
    let _second = second.names();
    sides_multiply();
    if let Some(end) = limit_of(first, second) {
        return Err(end);
    }
    match side_by_side_within(alloc, first, second) {
        Ok(pattern) => Ok(pattern),
        Err(Memory) => Err(ComposeEnd::Memory),
    }
}
