//! Changes within a list of commands.

ghost use Rattle.std.specs.Prelude.{◌≡◌, ◌+◌, ◌≤◌, ◌<◌, ◌++◌, map, take, drop, slice_set, vec_len};
ghost use Rattle.std.specs.Prelude.{OnOk, OnErr};
ghost use Rattle.std.specs.List.{remove};
ghost use Rattle.mc_pattern.specs.Commands.{plain_command};
ghost use Rattle.mc_standard.specs.Changes.{reach, changed};

use crate::change::Change;
use mc_model::Memory;
use mc_pattern::Command;

/// Puts a command in the place of one.
fn put<const H: usize>(commands: &mut Vec<Command<H>>, i: usize, command: Command<H>)
    requires { i < vec_len commands.old }
    ensures { commands.new.items ≡ slice_set commands.old.items i command.entry }
{
    commands[i] = command;
}

/// Takes a command out.
fn take_out<const H: usize>(commands: &mut Vec<Command<H>>, i: usize)
    requires { i < vec_len commands.old }
    ensures items { commands.new.items ≡ remove commands.old.items i }
    ensures len { vec_len commands.new + 1 ≡ vec_len commands.old }
{
    let _ = commands.remove(i);
}

/// Puts a command behind the place `i + 1`, and lets the commands at `i` and `i + 1` change places.
fn exchange_and_add<const H: usize>(
    commands: &mut Vec<Command<H>>,
    i: usize,
    command: Command<H>,
) -> Result<(), Memory>
    requires { i + 2 ≤ vec_len commands.old }
    ensures ok { OnOk result (map plain_command commands.new.items ≡
        take i (map plain_command commands.old.items)
        ++ changed (Change.Add command.entry) (drop i (map plain_command commands.old.items))) }
    ensures err { OnErr result (commands.new.items ≡ commands.old.items) }
{
    let Ok(()) = commands.insert(i + 2, command) else {
        return Err(Memory);
    };
    commands.swap(i, i + 1);
    Ok(())
}

impl<const H: usize> Change<H> {
    /// Makes the change of the commands that begin at `i`, which must exist. `Memory` comes where
    /// there is no room for one more command; then nothing changes.
    pub fn apply(self, commands: &mut Vec<Command<H>>, i: usize) -> Result<(), Memory>
        requires { i + reach self ≤ vec_len commands.old }
        ensures ok { OnOk result (map plain_command commands.new.items ≡
            take i (map plain_command commands.old.items)
            ++ changed self.entry (drop i (map plain_command commands.old.items))) }
        ensures err { OnErr result (commands.new.items ≡ commands.old.items) }
    {
        match self {
            Change::Exchange => commands.swap(i, i + 1),
            Change::Add(command) => return exchange_and_add(commands, i, command),
            Change::Merge(command) => {
                put(commands, i, command);
                take_out(commands, i + 1);
            }
            Change::Cancel => {
                take_out(commands, i + 1);
                take_out(commands, i);
            }
            Change::Put(command) => put(commands, i, command),
            Change::Remove => take_out(commands, i),
        }
        Ok(())
    }
}
