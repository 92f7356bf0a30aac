//! Commands of a part, on the qubits of the whole.

ghost use Rattle.std.specs.Prelude.{◌≡◌, ◌+◌, ◌<◌, [], ◌∷◌, ◌++◌, false, All, IfOk, OnOk, map};
ghost use Rattle.mc_model.specs.Numbers.{numbers_from};
ghost use Rattle.mc_model.specs.Signals.{toggled_all};
ghost use Rattle.mc_pattern.specs.Commands.{plain_command};
ghost use Rattle.mc_compose.specs.Composed.{placed_signal, placed_command, placed_commands};
ghost use Rattle.mc_compose.specs.Placing.{placed_in_row, IsOn};

use mc_model::Memory;
use mc_pattern::{Command, QSet, Signal};
use std::alloc::Global;

/// So many numbers from one on.
pub(crate) fn row(alloc: Global, start: u16, count: u16) -> Result<Vec<u16>, Memory>
    requires { start + count < 65536 }
    ensures { IfOk result (λ row. row.items ≡ numbers_from start count) }
{
    let mut row = Vec::new(alloc);
    'numbers: for k in 0..count {
        let Ok(()) = row.push(start + k) else {
            return Err(Memory);
        };
    }
    Ok(row)
}

/// Where a qubit of a part stands: an input at its place of a list, another in a row.
fn placed_qubit(inputs: &[u16], others: u16, q: u16) -> u16
    requires { placed_in_row inputs.now others q < 65536 }
    ensures { result ≡ placed_in_row inputs.now others q }
{
    let place = q as usize;
    if place < inputs.len() {
        inputs[place]
    } else {
        others + (place - inputs.len()) as u16
    }
}

/// Where the members of a set stand.
fn placed_set(alloc: Global, inputs: &[u16], others: u16, set: &QSet) -> Result<QSet, Memory>
    requires { All (λ q. placed_in_row inputs.now others q < 256) set.now }
    ensures { IfOk result (λ placed. placed ≡
        toggled_all (map (placed_in_row inputs.now others) set.now) []) }
{
    let mut placed = QSet::new(alloc);
    'members: for i in (0..set.len()).rev() {
        placed.toggle(placed_qubit(inputs, others, set.get(i)))?;
    }
    Ok(placed)
}

fn with_constant(mut signal: Signal, constant: bool) -> Signal
    requires { signal.constant ≡ false }
    ensures { result ≡ record { members = signal.members; constant = constant } }
{
    if constant {
        signal.flip();
    }
    signal
}

fn placed_signal(alloc: Global, inputs: &[u16], others: u16, s: &Signal) -> Result<Signal, Memory>
    requires { All (λ q. placed_in_row inputs.now others q < 256) s.now.members }
    ensures { IfOk result (λ placed. placed ≡
        placed_signal (placed_in_row inputs.now others) s.now) }
{
    let members = placed_set(alloc, inputs, others, s.members())?;
    Ok(with_constant(Signal::of(members), s.constant()))
}

#[tactic(auto, unfolding(crate::specs::Composed::placed_command))]
fn placed<const H: usize>(
    alloc: Global,
    inputs: &[u16],
    others: u16,
    command: &Command<H>,
) -> Result<Command<H>, Memory>
    requires { IsOn (λ q. placed_in_row inputs.now others q < 256) (plain_command command.now) }
    ensures { IfOk result (λ placed. plain_command placed ≡
        placed_command (placed_in_row inputs.now others) (plain_command command.now)) }
{
    match command {
        Command::Prep(q) => Ok(Command::Prep(placed_qubit(inputs, others, *q))),
        Command::Ent(q, r) => Ok(Command::Ent(
            placed_qubit(inputs, others, *q),
            placed_qubit(inputs, others, *r),
        )),
        Command::Meas { q, angle, s, t } => Ok(Command::Meas {
            q: placed_qubit(inputs, others, *q),
            angle: *angle,
            s: placed_signal(alloc, inputs, others, s)?,
            t: placed_signal(alloc, inputs, others, t)?,
        }),
        Command::FixX { q, s } => Ok(Command::FixX {
            q: placed_qubit(inputs, others, *q),
            s: placed_signal(alloc, inputs, others, s)?,
        }),
        Command::FixZ { q, s } => Ok(Command::FixZ {
            q: placed_qubit(inputs, others, *q),
            s: placed_signal(alloc, inputs, others, s)?,
        }),
    }
}

/// Appends a command. One that finds no memory is dropped.
fn push<const H: usize>(commands: &mut Vec<Command<H>>, command: Command<H>) -> Result<(), Memory>
    ensures { OnOk result (map plain_command commands.new.items ≡
        map plain_command commands.old.items ++ plain_command command.entry ∷ []) }
{
    match commands.push(command) {
        Ok(()) => Ok(()),
        Err(_) => Err(Memory),
    }
}

/// Appends the commands of a part, on the qubits where its own stand.
pub(crate) fn push_placed<const H: usize>(
    alloc: Global,
    inputs: &[u16],
    others: u16,
    part: &[Command<H>],
    commands: &mut Vec<Command<H>>,
) -> Result<(), Memory>
    requires { All (λ c. IsOn (λ q. placed_in_row inputs.now others q < 256) (plain_command c))
        part.now }
    ensures { OnOk result (map plain_command commands.new.items ≡
        map plain_command commands.old.items
        ++ placed_commands (placed_in_row inputs.now others) (map plain_command part.now)) }
{
    'commands: for command in part {
        push(commands, placed(alloc, inputs, others, command)?)?;
    }
    Ok(())
}

/// Appends where the listed qubits of a part stand.
pub(crate) fn push_qubits(
    inputs: &[u16],
    others: u16,
    part: &[u16],
    qubits: &mut Vec<u16>,
) -> Result<(), Memory>
    requires { All (λ q. placed_in_row inputs.now others q < 256) part.now }
    ensures { OnOk result (qubits.new.items ≡
        qubits.old.items ++ map (placed_in_row inputs.now others) part.now) }
{
    'qubits: for q in part {
        let Ok(()) = qubits.push(placed_qubit(inputs, others, *q)) else {
            return Err(Memory);
        };
    }
    Ok(())
}
