//! Uses of rules that are given, and not chosen.

ghost use Rattle.std.specs.Prelude.{◌≡◌, ◌⊎◌, ◌+◌, ◌<◌, ◌≤◌, length, map, IfOk, OnErr};
ghost use Rattle.std.specs.Prelude.{MatchOption, MatchBool};
ghost use Rattle.mc_pattern.specs.Commands.{plain_command};
ghost use Rattle.mc_standard.specs.Uses.{plain_rule, plain_use};
ghost use Rattle.mc_trace.specs.Changes.{LeadsBy};
ghost use Rattle.mc_derivations.specs.Following.{rule_reach, Leads, LeadsNowhere, Misfits};

use crate::fitting::{change_one, change_two};
use mc_model::Memory;
use mc_pattern::Command;
use mc_standard::{Change, Rule, Use};

/// How many commands a rule concerns.
fn reach_of(rule: Rule) -> usize
    ensures { result ≡ rule_reach (plain_rule rule) }
{
    match rule {
        Rule::Turn | Rule::DropEmpty => 1,
        _ => 2,
    }
}

/// What a rule makes of the commands that begin at `i`, if they are those of its line.
fn change_at<const H: usize>(
    commands: &[Command<H>],
    i: usize,
    rule: Rule,
) -> Result<Option<Change<H>>, Memory>
    requires { i + rule_reach (plain_rule rule) ≤ length commands.now }
    ensures { IfOk result (λ found. MatchOption found
        (LeadsNowhere (record { place = i + 1; rule = plain_rule rule })
        (map plain_command commands.now))
        (λ change. LeadsBy change (plain_rule rule) (i + 1) (map plain_command commands.now))) }
{
    if reach_of(rule) == 1 {
        return Ok(change_one(rule, &commands[i]));
    }
    match change_two(rule, &commands[i], &commands[i + 1])? {
        Some(change) => Ok(Some(change)),
        None => Ok(None),
    }
}

/// Whether the place of a use is 0 or the commands that its rule concerns do not all exist.
fn lacks(len: usize, u: Use) -> bool
    ensures { MatchBool result
        ((u.place ≡ 0) ⊎ (len + 1 < u.place + rule_reach (plain_rule u.rule)))
        ((0 < u.place) × (u.place + rule_reach (plain_rule u.rule) ≤ len + 1)) }
{
    u.place == 0 || u.place > len as u64 || len - (u.place as usize - 1) < reach_of(u.rule)
}

/// Makes a use of a rule, or tells the first of these that it breaks: 1, the commands that the rule concerns exist; 2, they are
/// those of the rule's line. Then, and without memory, nothing changes.
pub(crate) fn follow<const H: usize>(
    commands: &mut Vec<Command<H>>,
    u: Use,
) -> Result<Option<u8>, Memory>
    ensures follows { IfOk result (λ broken. MatchOption broken
        (Leads (plain_use u)
        (map plain_command commands.old.items) (map plain_command commands.new.items))
        (λ rule. (commands.new.items ≡ commands.old.items)
        × Misfits (plain_use u) (map plain_command commands.old.items) rule)) }
    ensures err { OnErr result (commands.new.items ≡ commands.old.items) }
{
    if lacks(commands.len(), u) {
        return Ok(Some(1));
    }
    let i = u.place as usize - 1;
    match change_at(commands.as_slice(), i, u.rule)? {
        Some(change) => {
            change.apply(commands, i)?;
            Ok(None)
        }
        None => Ok(Some(2)),
    }
}
