//! Copies of commands.

ghost use Rattle.std.specs.Prelude.{◌≡◌, ◌∷◌, ◌++◌, [], map, IfOk, OnOk};
ghost use Rattle.mc_pattern.specs.Commands.{plain_command};

use mc_model::Memory;
use mc_pattern::Command;
use std::alloc::Global;

/// The same command.
fn copy<const H: usize>(command: &Command<H>) -> Result<Command<H>, Memory>
    ensures { IfOk result (λ copy. copy ≡ command.now) }
{
    match command {
        Command::Prep(q) => Ok(Command::Prep(*q)),
        Command::Ent(q, r) => Ok(Command::Ent(*q, *r)),
        Command::Meas { q, angle, s, t } => Ok(Command::Meas {
            q: *q,
            angle: *angle,
            s: s.copy()?,
            t: t.copy()?,
        }),
        Command::FixX { q, s } => Ok(Command::FixX {
            q: *q,
            s: s.copy()?,
        }),
        Command::FixZ { q, s } => Ok(Command::FixZ {
            q: *q,
            s: s.copy()?,
        }),
    }
}

/// Adds the same command, which goes last.
pub(crate) fn append_copy<const H: usize>(
    commands: &mut Vec<Command<H>>,
    command: &Command<H>,
) -> Result<(), Memory>
    ensures { OnOk result (map plain_command commands.new.items ≡
        map plain_command commands.old.items ++ plain_command command.now ∷ []) }
{
    match commands.push(copy(command)?) {
        Ok(()) => Ok(()),
        Err(_) => Err(Memory),
    }
}

/// The same commands.
pub(crate) fn copy_all<const H: usize>(
    alloc: Global,
    commands: &[Command<H>],
) -> Result<Vec<Command<H>>, Memory>
    ensures { IfOk result (λ copies. map plain_command copies.items ≡
        map plain_command commands.now) }
{
    let mut copies = Vec::new(alloc);
    'commands: for command in commands {
        append_copy(&mut copies, command)?;
    }
    Ok(copies)
}
