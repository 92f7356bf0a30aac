//! Patterns of parts that are known to fit.

ghost use Rattle.std.specs.Prelude.{◌≡◌, map};
ghost use Rattle.mc_pattern.specs.Commands.{plain_command};
ghost use Rattle.mc_pattern.specs.Patterns.{IsPattern, begun, with_outputs};

use crate::command::Command;
use crate::pattern::Pattern;
use mc_names::Names;

impl<const H: usize> Pattern<H> {
    /// The pattern of parts that are those of a valid one. It takes no memory.
    pub fn of(names: Names, inputs: u16, commands: Vec<Command<H>>, outputs: Vec<u16>) -> Pattern<H>
        requires { IsPattern H
            (with_outputs (begun names inputs (map plain_command commands.items)) outputs.items) }
        ensures { result ≡
            with_outputs (begun names inputs (map plain_command commands.entry.items)) outputs.items }
    {
        Pattern {
            names,
            inputs,
            commands,
            outs: outputs,
        }
    }
}
