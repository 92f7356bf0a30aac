//! A standard form as a pattern, and with other signals.

ghost use Rattle.std.specs.Prelude.{◌≡◌, [], ◌∷◌, ◌++◌, IfOk, OnOk, map};
ghost use Rattle.mc_model.specs.Pattern.{Prep};
ghost use Rattle.mc_pattern.specs.Commands.{plain_command};
ghost use Rattle.mc_rules.specs.Parts.{with_signals};
ghost use Rattle.mc_standard.specs.StandardForms.{IsStandardForm};
ghost use Rattle.mc_standard.specs.Plain.{plain_edge, plain_measure, plain_fix};

use crate::standard::{Fix, Measure, Standard};
use mc_model::Memory;
use mc_pattern::{Command, Pattern};
use std::alloc::Global;

/// Adds an item, which goes last. An item that finds no memory is dropped.
pub(crate) fn append<T: Drop>(items: &mut Vec<T>, item: T) -> Result<(), Memory>
    ensures { OnOk result (items.new.items ≡ items.old.items ++ item ∷ []) }
{
    match items.push(item) {
        Ok(()) => Ok(()),
        Err(_) => Err(Memory),
    }
}

/// The same list.
pub(crate) fn copied<T: Copy>(alloc: Global, items: &[T]) -> Result<Vec<T>, Memory>
    ensures { IfOk result (λ copy. copy.items ≡ items.now) }
{
    match Vec::from_slice(alloc, items) {
        Ok(copy) => Ok(copy),
        Err(_) => Err(Memory),
    }
}

fn command_of_measure<const H: usize>(measure: &Measure<H>) -> Result<Command<H>, Memory>
    ensures { IfOk result (λ command. plain_command command ≡ plain_measure measure.now) }
{
    Ok(Command::Meas {
        q: measure.q,
        angle: measure.angle,
        s: measure.s.copy()?,
        t: measure.t.copy()?,
    })
}

fn command_of_fix<const H: usize>(fix: &Fix) -> Result<Command<H>, Memory>
    ensures { IfOk result (λ command. plain_command command ≡ plain_fix fix.now) }
{
    match fix {
        Fix::X { q, s } => Ok(Command::FixX {
            q: *q,
            s: s.copy()?,
        }),
        Fix::Z { q, s } => Ok(Command::FixZ {
            q: *q,
            s: s.copy()?,
        }),
    }
}

fn add_preps<const H: usize>(commands: &mut Vec<Command<H>>, preps: &[u16]) -> Result<(), Memory>
    ensures { OnOk result (map plain_command commands.new.items ≡
        map plain_command commands.old.items ++ map Prep preps.now) }
{
    'preps: for q in preps {
        append(commands, Command::Prep(*q))?;
    }
    Ok(())
}

fn add_edges<const H: usize>(
    commands: &mut Vec<Command<H>>,
    edges: &[(u16, u16)],
) -> Result<(), Memory>
    ensures { OnOk result (map plain_command commands.new.items ≡
        map plain_command commands.old.items ++ map plain_edge edges.now) }
{
    'edges: for (q, r) in edges {
        append(commands, Command::Ent(*q, *r))?;
    }
    Ok(())
}

fn add_measures<const H: usize>(
    commands: &mut Vec<Command<H>>,
    measures: &[Measure<H>],
) -> Result<(), Memory>
    ensures { OnOk result (map plain_command commands.new.items ≡
        map plain_command commands.old.items ++ map plain_measure measures.now) }
{
    'measures: for measure in measures {
        append(commands, command_of_measure(measure)?)?;
    }
    Ok(())
}

fn add_fixes<const H: usize>(commands: &mut Vec<Command<H>>, fixes: &[Fix]) -> Result<(), Memory>
    ensures { OnOk result (map plain_command commands.new.items ≡
        map plain_command commands.old.items ++ map plain_fix fixes.now) }
{
    'fixes: for fix in fixes {
        append(commands, command_of_fix(fix)?)?;
    }
    Ok(())
}

impl<const H: usize> Standard<H> {
    /// The same pattern, its commands in one list.
    pub fn as_pattern(&self) -> Result<Pattern<H>, Memory>
        ensures { IfOk result (λ pattern. pattern ≡ self.now) }
    {
        let alloc = *self.outs.allocator();
        let mut commands = Vec::new(alloc);
        add_preps(&mut commands, self.preps.as_slice())?;
        add_edges(&mut commands, self.edges.as_slice())?;
        add_measures(&mut commands, self.measures.as_slice())?;
        add_fixes(&mut commands, self.fixes.as_slice())?;
        let outputs = copied(alloc, self.outs.as_slice())?;
        Ok(Pattern::of(self.names.copy()?, self.inputs, commands, outputs))
    }

    /// The pattern with other measurements and corrections, with which it is its own standard form too.
    pub fn with_signals(
        &self,
        measures: Vec<Measure<H>>,
        fixes: Vec<Fix>,
    ) -> Result<Standard<H>, Memory>
        requires { IsStandardForm H (with_signals self.now (map plain_measure measures.items)
            (map plain_fix fixes.items)) }
        ensures { IfOk result (λ standard. standard ≡
            with_signals self.now (map plain_measure measures.entry.items)
            (map plain_fix fixes.items)) }
    {
        let alloc = *self.outs.allocator();
        Ok(Standard {
            names: self.names.copy()?,
            inputs: self.inputs,
            outs: copied(alloc, self.outs.as_slice())?,
            preps: copied(alloc, self.preps.as_slice())?,
            edges: copied(alloc, self.edges.as_slice())?,
            measures,
            fixes,
        })
    }
}
