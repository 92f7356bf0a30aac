//! Chained patterns.

ghost use Rattle.std.specs.Prelude.{◌≡◌, ◌↔◌, ℕ, IfOk, OnOk, Err, IfSome, MatchOption, Some};
ghost use Rattle.std.specs.Prelude.{None, length, map};
ghost use Rattle.mc_pattern.specs.Commands.{plain_command};
ghost use Rattle.mc_compose.specs.Composed.{chained};
ghost use Rattle.mc_compose.specs.Limits.{pattern_limit};
ghost use Rattle.mc_compose.specs.Maps.{MultipliesMaps};

use crate::laws::{chains_are_patterns, chains_multiply};
use crate::limit::{ComposeEnd, passed};
use crate::naming::add_free;
use crate::placing::{push_placed, push_qubits};
use mc_model::Memory;
use mc_pattern::{Command, Names, Pattern};
use std::alloc::Global;

/// The first limit that the chained pattern passes, where it passes one.
fn limit_of<const H: usize>(first: &Pattern<H>, second: &Pattern<H>) -> Option<ComposeEnd>
    ensures limit { MatchOption result (pattern_limit (chained first.now second.now) ≡ None)
        (λ end. (which found : ℕ) → (end ≡ ComposeEnd.Limit which found) ↔
        (pattern_limit (chained first.now second.now) ≡ Some (which, found))) }
    ensures told { IfSome result (λ end. end ≡ ComposeEnd.Memory → ⊥) }
{
    let qubits = first.names().len() + (second.names().len() - second.inputs());
    let commands = first.commands().len() + second.commands().len();
    passed(qubits as u64, commands as u64)
}

/// The names of the chained pattern.
fn names_of<const H: usize>(first: &Pattern<H>, second: &Pattern<H>) -> Result<Names, Memory>
    requires { pattern_limit (chained first.now second.now) ≡ None }
    ensures { IfOk result (λ names. names ≡ (chained first.now second.now).names) }
{
    let mut names = first.names().copy()?;
    add_free(&mut names, second.names(), second.inputs())?;
    Ok(names)
}

/// The commands of the chained pattern.
fn commands_of<const H: usize>(
    alloc: Global,
    first: &Pattern<H>,
    second: &Pattern<H>,
) -> Result<Vec<Command<H>>, Memory>
    requires fits { length first.now.outputs ≡ second.now.inputs }
    requires within { pattern_limit (chained first.now second.now) ≡ None }
    ensures { IfOk result (λ commands. map plain_command commands.items ≡
        (chained first.now second.now).commands) }
{
    // the proof needs that the second is valid
    let _second = second.names();
    let others = first.names().len();
    let mut commands = Vec::new(alloc);
    push_placed(alloc, &[], 0, first.commands(), &mut commands)?;
    push_placed(
        alloc,
        first.outputs(),
        others,
        second.commands(),
        &mut commands,
    )?;
    Ok(commands)
}

/// The outputs of the chained pattern.
fn outputs_of<const H: usize>(
    alloc: Global,
    first: &Pattern<H>,
    second: &Pattern<H>,
) -> Result<Vec<u16>, Memory>
    requires fits { length first.now.outputs ≡ second.now.inputs }
    requires within { pattern_limit (chained first.now second.now) ≡ None }
    ensures { IfOk result (λ outputs. outputs.items ≡ (chained first.now second.now).outputs) }
{
    // the proof needs that the second is valid
    let _second = second.names();
    let others = first.names().len();
    let mut outputs = Vec::new(alloc);
    push_qubits(first.outputs(), others, second.outputs(), &mut outputs)?;
    Ok(outputs)
}

/// The chained pattern within the limits.
fn chained_within<const H: usize>(
    alloc: Global,
    first: &Pattern<H>,
    second: &Pattern<H>,
) -> Result<Pattern<H>, Memory>
    requires fits { length first.now.outputs ≡ second.now.inputs }
    requires within { pattern_limit (chained first.now second.now) ≡ None }
    ensures { IfOk result (λ pattern. pattern ≡ chained first.now second.now) }
{
    // the proof needs that both are valid
    let _first = first.names();
    let _second = second.names();
    chains_are_patterns();
    let names = names_of(first, second)?;
    let commands = commands_of(alloc, first, second)?;
    let outputs = outputs_of(alloc, first, second)?;
    Ok(Pattern::of(names, first.inputs(), commands, outputs))
}

/// The first pattern and then the second, whose inputs are the first's outputs. Whatever the
/// outcomes, its branch map is the matrix product of theirs (Danos, Kashefi and Panangaden 2007).
///
/// # Errors
///
/// `Limit` exactly where the qubits of the result are more than 256, by the number 2, or else its
/// commands are more than 262,144, by the number 3. `Memory`, which stands last, is want of memory.
pub fn chain<const H: usize>(
    alloc: Global,
    first: &Pattern<H>,
    second: &Pattern<H>,
) -> Result<Pattern<H>, ComposeEnd>
    requires { length first.now.outputs ≡ second.now.inputs }
    ensures pattern { IfOk result (λ pattern. pattern ≡ chained first.now second.now) }
    ensures maps { IfOk result (λ pattern. MultipliesMaps H first.now second.now pattern) }
    ensures limit { (which found : ℕ) → (result ≡ Err (ComposeEnd.Limit which found)) ↔
        (pattern_limit (chained first.now second.now) ≡ Some (which, found)) }
    ensures within { OnOk result (pattern_limit (chained first.now second.now) ≡ None) }
    ensures memory_last { result ≡ Err ComposeEnd.Memory →
        pattern_limit (chained first.now second.now) ≡ None }
{
    // the proof needs that both are valid
    let _first = first.names();
    let _second = second.names();
    chains_multiply();
    if let Some(end) = limit_of(first, second) {
        return Err(end);
    }
    match chained_within(alloc, first, second) {
        Ok(pattern) => Ok(pattern),
        Err(Memory) => Err(ComposeEnd::Memory),
    }
}
