//! The measured qubits of a pattern, in measuring order.

ghost use Rattle.std.specs.Prelude.{◌≡◌, ◌++◌, ◌∷◌, [], OnOk, IfOk, map};
ghost use Rattle.mc_model.specs.Pattern.{measured_order};
ghost use Rattle.mc_pattern.specs.Commands.{plain_command};

use mc_model::Memory;
use mc_pattern::Command;
use std::alloc::Global;

/// Adds the qubit that a command measures, if it measures one.
fn add_measured<const H: usize>(order: &mut Vec<u16>, command: &Command<H>) -> Result<(), Memory>
    ensures { OnOk result (order.new.items ≡ order.old.items ++ measured_order (plain_command command.now ∷ [])) }
{
    match command {
        Command::Meas { q, .. } => match order.push(*q) {
            Ok(()) => Ok(()),
            Err(_) => Err(Memory),
        },
        _ => Ok(()),
    }
}

/// The measured qubits, in measuring order.
pub(crate) fn measured<const H: usize>(
    alloc: Global,
    commands: &[Command<H>],
) -> Result<Vec<u16>, Memory>
    ensures { IfOk result (λ order. order.items ≡ measured_order (map plain_command commands.now)) }
{
    let mut order = Vec::new(alloc);
    'commands: for command in commands {
        add_measured(&mut order, command)?;
    }
    Ok(order)
}
