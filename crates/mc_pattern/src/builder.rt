//! Building patterns.

ghost use Rattle.std.specs.Prelude.{◌≡◌, ◌↔◌, ℕ, ◌<◌, [], ◌∷◌, ◌++◌, length, Err, Some};
ghost use Rattle.std.specs.Prelude.{None};
ghost use Rattle.std.specs.Prelude.{OnOk, IfOk, OnErr, IfErr, IsErrAnd, false, IsTrue};
ghost use Rattle.std.specs.Option.{ForSome};
ghost use Rattle.mc_model.specs.Steps.{is_permitted};
ghost use Rattle.mc_model.specs.Limits.{most_qubits, most_commands};
ghost use Rattle.mc_model.specs.Bits.{bits_of};
ghost use Rattle.mc_model.specs.Names.{place_of};
ghost use Rattle.mc_model.specs.Pattern.{Prep, measured_by};
ghost use Rattle.mc_pattern.specs.Commands.{plain_command};
ghost use Rattle.mc_pattern.specs.Rules.{is_prep, broken_rule, broken_outputs, marked};
ghost use Rattle.mc_pattern.specs.Patterns.{begun, with_outputs, IsFree};

use crate::command::Command;
use crate::outputs::rule_of_outputs;
use crate::pattern::Pattern;
use crate::rules::rule_of;
use mc_model::Memory;
use mc_names::{Name, Names, NamesEnd};
use std::alloc::Global;
use std::marker::Model;
use thiserror::Error;

/// The most commands of a pattern.
const MOST_COMMANDS: usize = 262_144;

/// The most qubits of a pattern.
const MOST_QUBITS: u16 = 256;

/// Why a call of a builder was refused.
#[derive(Clone, Copy, Debug, PartialEq, Eq, Error)]
pub enum PushEnd {
    /// The qubit with this number has the name already.
    #[error("the name stands at {0}")]
    Twice(u16),
    /// The pattern has 256 qubits.
    #[error("there are 256 qubits")]
    Full,
    /// The least rule that is broken.
    #[error("rule {0} is broken")]
    Rule(u8),
    /// The pattern has 262,144 commands.
    #[error("there are 262,144 commands")]
    Limit,
    /// Memory ran out.
    #[error("no memory")]
    Memory,
}

/// A pattern that is being built. A contract sees the pattern so far, without outputs.
#[derive(Drop)]
pub struct Builder<const H: usize> {
    names: Names,
    inputs: u16,
    commands: Vec<Command<H>>,
    marks: Vec<bool>,
}

impl<const H: usize> Model for Builder<H> {
    ghost use Rattle.std.specs.Prelude.{map};
    ghost use Rattle.mc_model.specs.Pattern.{Pattern as Plain};
    ghost use Rattle.mc_pattern.specs.Commands.{plain_command};
    ghost use Rattle.mc_pattern.specs.Patterns.{IsBuilt, begun};

    ghost Value = { Plain };

    ghost view = { λ b. begun b.names b.inputs (map plain_command b.commands.items) };

    ghost invariant = { λ b.
        IsBuilt H (begun b.names b.inputs (map plain_command b.commands.items)) b.marks.items };
}

/// The qubit that a command measures, if it measures one.
fn measured_by<const H: usize>(command: &Command<H>) -> Option<u16>
    ensures { result ≡ measured_by (plain_command command.now) }
{
    match command {
        Command::Meas { q, .. } => Some(*q),
        _ => None,
    }
}

/// Adds a command, which goes last. A command that finds no memory is dropped.
fn append<const H: usize>(commands: &mut Vec<Command<H>>, command: Command<H>) -> Result<(), Memory>
    ensures ok { OnOk result (commands.new.items ≡ commands.old.items ++ command.entry ∷ []) }
    ensures err { OnErr result (commands.new.items ≡ commands.old.items) }
{
    match commands.push(command) {
        Ok(()) => Ok(()),
        Err(_) => Err(Memory),
    }
}

/// Sets the mark of a qubit, if there is one.
fn mark(marks: &mut [bool], q: Option<u16>)
    requires { ForSome q (λ q. q < length marks.old) }
    ensures { bits_of marks.new ≡ marked (bits_of marks.old) q }
{
    if let Some(q) = q {
        marks[q as usize] = true;
    }
}

impl<const H: usize> Builder<H> {
    ghost use Rattle.mc_pattern.specs.Patterns.{IsBegun};

    /// A pattern of the inputs alone.
    pub fn new(alloc: Global, inputs: Names) -> Result<Builder<H>, Memory>
        requires { IsTrue (is_permitted H) }
        ensures { IfOk result (λ builder. builder ≡ begun inputs (length inputs) []) }
    {
        let count = inputs.len();
        match vec![in alloc; false; MOST_QUBITS as usize] {
            Ok(marks) => Ok(Builder {
                names: inputs,
                inputs: count,
                commands: Vec::new(alloc),
                marks,
            }),
            Err(_) => Err(Memory),
        }
    }

    /// The names of the qubits so far.
    pub fn names(&self) -> &Names
        ensures names { result.now ≡ self.now.names }
        ensures valid { IsBegun H self.now }
    {
        &self.names
    }

    /// Adds a qubit and its preparation, and gives the qubit's number. Refusals come in the order of `PushEnd`, and leave the
    /// builder as it was: `Twice` where the name is held, `Full` where there are 256 qubits, `Limit` where there are 262,144
    /// commands.
    pub fn prep(&mut self, name: Name) -> Result<u16, PushEnd>
        ensures number { IfOk result (λ q. q ≡ length self.old.names) }
        ensures added { OnOk result (self.new ≡ record self.old {
          names = self.old.names ++ name ∷ [];
          commands = self.old.commands ++ Prep (length self.old.names) ∷ [];
        }) }
        ensures allowed { OnOk result (IsFree self.old name) }
        ensures twice { (q : ℕ) →
            (result ≡ Err (PushEnd.Twice q)) ↔ (place_of self.old.names name ≡ Some q) }
        ensures full { (result ≡ Err PushEnd.Full) ↔
            ((place_of self.old.names name ≡ None) × (length self.old.names ≡ most_qubits)) }
        ensures limit { (result ≡ Err PushEnd.Limit) ↔
            ((place_of self.old.names name ≡ None) × (length self.old.names < most_qubits)
            × (length self.old.commands ≡ most_commands)) }
        ensures no_rule { (n : ℕ) → result ≡ Err (PushEnd.Rule n) → ⊥ }
        ensures memory_last { IfErr result (λ end. (end ≡ PushEnd.Memory) ↔ IsFree self.old name) }
        ensures err { OnErr result (self.new ≡ self.old) }
    {
        if let Some(q) = self.names.find(&name) {
            return Err(PushEnd::Twice(q));
        }
        let number = self.names.len();
        if number >= MOST_QUBITS {
            return Err(PushEnd::Full);
        }
        let count = self.commands.len();
        if count >= MOST_COMMANDS {
            return Err(PushEnd::Limit);
        }
        let Ok(()) = append(&mut self.commands, Command::Prep(number)) else {
            return Err(PushEnd::Memory);
        };
        match self.names.add(name) {
            Ok(number) => {
                // the proof needs that the names are distinct
                let _count = self.names.len();
                Ok(number)
            }
            Err(_) => {
                self.commands.truncate(count);
                Err(PushEnd::Memory)
            }
        }
    }

    /// Adds a command that is no preparation. `Rule` gives the least rule that it breaks: 1, an
    /// operand is no qubit; 2, an operand was measured; 3, both operands of `Ent` are one qubit; 4, a
    /// member of a signal was not measured before. Else `Limit` comes where there are 262,144
    /// commands. A refused command is dropped, and the builder is as it was.
    pub fn push(&mut self, command: Command<H>) -> Result<(), PushEnd>
        requires { is_prep (plain_command command) ≡ false }
        ensures added { OnOk result (self.new ≡
            record self.old { commands = self.old.commands ++ plain_command command.entry ∷ [] }) }
        ensures allowed { OnOk result ((broken_rule self.old (plain_command command.entry) ≡ None)
            × (length self.old.commands < most_commands)) }
        ensures rule { (n : ℕ) →
            (result ≡ Err (PushEnd.Rule n)) ↔
            (broken_rule self.old (plain_command command.entry) ≡ Some n) }
        ensures limit { (result ≡ Err PushEnd.Limit) ↔
            ((broken_rule self.old (plain_command command.entry) ≡ None)
            × (length self.old.commands ≡ most_commands)) }
        ensures no_twice { (q : ℕ) → result ≡ Err (PushEnd.Twice q) → ⊥ }
        ensures no_full { result ≡ Err PushEnd.Full → ⊥ }
        ensures memory_last { IfErr result (λ end. (end ≡ PushEnd.Memory) ↔
            ((broken_rule self.old (plain_command command.entry) ≡ None)
            × (length self.old.commands < most_commands))) }
        ensures err { OnErr result (self.new ≡ self.old) }
    {
        if let Some(rule) = rule_of(self.names.len(), self.marks.as_slice(), &command) {
            return Err(PushEnd::Rule(rule));
        }
        if self.commands.len() >= MOST_COMMANDS {
            return Err(PushEnd::Limit);
        }
        let measured = measured_by(&command);
        let Ok(()) = append(&mut self.commands, command) else {
            return Err(PushEnd::Memory);
        };
        mark(&mut self.marks, measured);
        Ok(())
    }

    /// The pattern with these outputs. `Rule` gives the least rule that they break: 5, an output is no qubit; 6, an output was
    /// measured; 7, an output is listed twice; 8, a qubit that was not measured is not listed. A refusal, `Memory` last, hands
    /// the builder back as it was.
    pub fn finish(self, outputs: &[u16]) -> Result<Pattern<H>, (Builder<H>, PushEnd)>
        ensures pattern { IfOk result (λ pattern. pattern ≡ with_outputs self.entry outputs.now) }
        ensures allowed { OnOk result (broken_outputs self.entry outputs.now ≡ None) }
        ensures rule { (n : ℕ) → IsErrAnd result (λ refused. refused.1 ≡ PushEnd.Rule n) ↔
            (broken_outputs self.entry outputs.now ≡ Some n) }
        ensures memory_last { IfErr result (λ refused. (refused.1 ≡ PushEnd.Memory) ↔
            (broken_outputs self.entry outputs.now ≡ None)) }
        ensures kept { IfErr result (λ refused. refused.0 ≡ self.entry) }
    {
        if let Some(rule) = rule_of_outputs(self.names.len(), self.marks.as_slice(), outputs) {
            return Err((self, PushEnd::Rule(rule)));
        }
        let alloc = *self.commands.allocator();
        match outputs.to_vec(alloc) {
            Ok(outs) => Ok(Pattern {
                names: self.names,
                inputs: self.inputs,
                commands: self.commands,
                outs,
            }),
            Err(_) => Err((self, PushEnd::Memory)),
        }
    }
}
