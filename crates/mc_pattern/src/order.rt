//! The measuring order of patterns.

ghost use Rattle.std.specs.Prelude.{◌≡◌, ◌++◌, ◌∷◌, [], IfOk, OnOk, map};
ghost use Rattle.mc_model.specs.Pattern.{measured_order};
ghost use Rattle.mc_pattern.specs.Commands.{plain_command};

use crate::command::Command;
use crate::pattern::Pattern;
use mc_model::Memory;
use std::alloc::Global;

/// Adds the qubit that a command measures, if it measures one.
fn add_measured<const H: usize>(order: &mut Vec<u16>, command: &Command<H>) -> Result<(), Memory>
    ensures { OnOk result (order.new.items ≡
        order.old.items ++ measured_order (plain_command command.now ∷ [])) }
{
    match command {
        Command::Meas { q, .. } => match order.push(*q) {
            Ok(()) => Ok(()),
            Err(_) => Err(Memory),
        },
        _ => Ok(()),
    }
}

fn measured_order<const H: usize>(
    alloc: Global,
    commands: &[Command<H>],
) -> Result<Vec<u16>, Memory>
    ensures { IfOk result (λ order. order.items ≡ measured_order (map plain_command commands.now)) }
{
    let mut order = Vec::new(alloc);
    'commands: for command in commands {
        add_measured(&mut order, command)?;
    }
    Ok(order)
}

impl<const H: usize> Pattern<H> {
    /// The qubits that are measured, in measuring order.
    pub fn measured_qubits(&self, alloc: Global) -> Result<Vec<u16>, Memory>
        ensures { IfOk result (λ order. order.items ≡ measured_order self.now.commands) }
    {
        measured_order(alloc, self.commands.as_slice())
    }
}
