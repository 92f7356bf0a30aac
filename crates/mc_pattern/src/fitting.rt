//! Building where nothing is refused but for want of memory.

ghost use Rattle.std.specs.Prelude.{◌≡◌, ◌<◌, [], ◌∷◌, ◌++◌, length, not, false, OnOk, IfOk, OnErr};
ghost use Rattle.mc_model.specs.Limits.{most_commands};
ghost use Rattle.mc_model.specs.Numbers.{ListsOnce};
ghost use Rattle.mc_model.specs.Pattern.{Prep};
ghost use Rattle.mc_model.specs.Valid.{FitsBehind, measured};
ghost use Rattle.mc_pattern.specs.Commands.{plain_command};
ghost use Rattle.mc_pattern.specs.Rules.{is_prep};
ghost use Rattle.mc_pattern.specs.Patterns.{with_outputs, IsFree};

use crate::builder::{Builder, PushEnd};
use crate::command::Command;
use crate::pattern::Pattern;
use mc_model::Memory;
use mc_names::Name;

/// The refusal that is left where no other comes.
fn want_of_memory(end: PushEnd) -> Memory
    requires { end ≡ PushEnd.Memory }
{
    match end {
        PushEnd::Memory => Memory,
        _ => unreachable!(),
    }
}

impl<const H: usize> Builder<H> {
    /// Adds a qubit with a name that is free, and its preparation, and gives the qubit's number.
    /// Want of memory leaves the builder as it was.
    pub fn prep_free(&mut self, name: Name) -> Result<u16, Memory>
        requires { IsFree self.old name }
        ensures number { IfOk result (λ q. q ≡ length self.old.names) }
        ensures added { OnOk result (self.new ≡ record self.old {
          names = self.old.names ++ name ∷ [];
          commands = self.old.commands ++ Prep (length self.old.names) ∷ [];
        }) }
        ensures err { OnErr result (self.new ≡ self.old) }
    {
        match self.prep(name) {
            Ok(q) => Ok(q),
            Err(end) => Err(want_of_memory(end)),
        }
    }

    /// Adds a command that is no preparation and may stand here. Want of memory drops the command
    /// and leaves the builder as it was.
    pub fn push_fitting(&mut self, command: Command<H>) -> Result<(), Memory>
        requires no_prep { is_prep (plain_command command) ≡ false }
        requires fits { FitsBehind self.old.inputs self.old.commands (plain_command command) }
        requires room { length self.old.commands < most_commands }
        ensures added { OnOk result (self.new ≡
            record self.old { commands = self.old.commands ++ plain_command command.entry ∷ [] }) }
        ensures err { OnErr result (self.new ≡ self.old) }
    {
        // the proof needs that the builder has a name for each qubit
        let _count = self.names().len();
        match self.push(command) {
            Ok(()) => Ok(()),
            Err(end) => Err(want_of_memory(end)),
        }
    }

    /// The pattern with outputs that list each qubit once that was not measured.
    pub fn finish_listing(self, outputs: &[u16]) -> Result<Pattern<H>, Memory>
        requires { ListsOnce (length self.names) (λ q. not (measured self.commands q)) outputs.now }
        ensures { IfOk result (λ pattern. pattern ≡ with_outputs self.entry outputs.now) }
    {
        match self.finish(outputs) {
            Ok(pattern) => Ok(pattern),
            Err((_, end)) => Err(want_of_memory(end)),
        }
    }
}
