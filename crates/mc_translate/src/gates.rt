//! Gates as commands.

ghost use Rattle.std.specs.Prelude.{◌≡◌, ◌+◌, ◌<◌, ◌≤◌, false, IfOk, OnOk, length};
ghost use Rattle.mc_model.specs.Limits.{most_qubits, most_commands};
ghost use Rattle.mc_model.specs.Signals.{signal_of};
ghost use Rattle.mc_model.specs.Valid.{IsLive, measured};
ghost use Rattle.mc_circuit.specs.Gates.{plain_gate};
ghost use Rattle.mc_translate.specs.Steps.{with_j, with_gate, qubits_behind, CanStep};

use mc_angle::Angle;
use mc_circuit::Gate;
use mc_model::Memory;
use mc_pattern::{Builder, Command};
use mc_signal::Signal;
use std::alloc::Global;

/// The signal of one qubit.
fn signal_of(alloc: Global, q: u16) -> Result<Signal, Memory>
    requires { q < 256 }
    ensures { IfOk result (λ signal. signal ≡ signal_of q) }
{
    let mut signal = Signal::empty(alloc);
    signal.toggle(q)?;
    Ok(signal)
}

/// Adds the commands of a `J` on a qubit, and gives the fresh qubit that stands for its wire from
/// then on.
fn push_j<const H: usize>(
    alloc: Global,
    builder: &mut Builder<H>,
    q: u16,
    angle: Angle<H>,
) -> Result<u16, Memory>
    requires qubit { IsLive builder.old.inputs builder.old.commands q }
    requires unborn { measured builder.old.commands (length builder.old.names) ≡ false }
    requires names { length builder.old.names < most_qubits }
    requires commands { length builder.old.commands + 4 ≤ most_commands }
    ensures fresh { IfOk result (λ next. next ≡ length builder.old.names) }
    ensures added { OnOk result (builder.new ≡ with_j H q angle.entry builder.old) }
{
    let name = builder.names().fresh();
    let next = builder.prep_free(name)?;
    builder.push_fitting(Command::Ent(q, next))?;
    builder.push_fitting(Command::Meas {
        q,
        angle: angle.neg(),
        s: Signal::empty(alloc),
        t: Signal::empty(alloc),
    })?;
    let fix = Command::FixX {
        q: next,
        s: signal_of(alloc, q)?,
    };
    builder.push_fitting(fix)?;
    Ok(next)
}

/// Adds the commands of a gate, where `at` has for each wire the qubit that stands for it.
pub(crate) fn push_gate<const H: usize>(
    alloc: Global,
    builder: &mut Builder<H>,
    at: &mut [u16],
    gate: &Gate<H>,
) -> Result<(), Memory>
    requires { CanStep at.old (plain_gate gate.now) builder.old }
    ensures added { OnOk result (builder.new ≡
        with_gate H at.old (plain_gate gate.now) builder.old) }
    ensures moved { OnOk result (at.new ≡
        qubits_behind at.old (plain_gate gate.now) (length builder.old.names)) }
{
    match *gate {
        Gate::J { wire, angle } => {
            let next = push_j(alloc, builder, at[wire as usize], angle)?;
            at[wire as usize] = next;
        }
        Gate::Cz { a, b } => {
            builder.push_fitting(Command::Ent(at[a as usize], at[b as usize]))?;
        }
    }
    Ok(())
}
