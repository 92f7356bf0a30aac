//! One pass over a list of commands.

ghost use Rattle.std.specs.Prelude.{[], ◌∷◌, List, map, IfOk, OnOk};
ghost use Rattle.mc_model.specs.Pattern.{Command as Plain};
ghost use Rattle.mc_pattern.specs.Commands.{plain_command};
ghost use Rattle.mc_standard.specs.Running.{OperandsBelow, AllBelow, IsRoomy, LeadsTo};

use crate::listing::append;
use crate::pairs::{no_pairs, toggle};
use crate::signals::{add, hand_on, no_sums, take_with};
use crate::standard::Measure;
use crate::sum::Sum;
use mc_model::Memory;
use mc_pattern::Command;
use std::alloc::Global;

/// What a pass has come to: preparations, the pairs that are entangled, measurements, and for each
/// qubit the sums of the signals of its corrections by `X` and by `Z`.
#[derive(Drop)]
pub(crate) struct Pass<const H: usize> {
    pub(crate) preps: Vec<u16>,
    pub(crate) odd: Vec<u64>,
    pub(crate) measures: Vec<Measure<H>>,
    pub(crate) xs: Vec<Sum>,
    pub(crate) zs: Vec<Sum>,
}

impl<const H: usize> Pass<H> {
    fn new(alloc: Global) -> Result<Pass<H>, Memory>
        ensures roomy { IfOk result (λ pass. IsRoomy pass) }
        ensures begins { IfOk result (λ pass. (cs : List Plain) → LeadsTo pass cs cs) }
    {
        Ok(Pass {
            preps: Vec::new(alloc),
            odd: no_pairs(alloc)?,
            measures: Vec::new(alloc),
            xs: no_sums(alloc)?,
            zs: no_sums(alloc)?,
        })
    }

    /// Goes on over a command: corrections are added up, at an entangling each operand's `X` goes
    /// over to the other's `Z`, and a measurement takes the two over.
    fn go_on(&mut self, alloc: Global, command: &Command<H>) -> Result<(), Memory>
        requires roomy { IsRoomy self.old }
        requires below { OperandsBelow 256 (plain_command command.now) }
        ensures roomy { OnOk result (IsRoomy self.new) }
        ensures leads { OnOk result ((rest whole : List Plain) →
            LeadsTo self.old (plain_command command.now ∷ rest) whole →
            LeadsTo self.new rest whole) }
    {
        match command {
            Command::Prep(q) => append(&mut self.preps, *q)?,
            Command::Ent(q, r) => {
                toggle(&mut self.odd, *q, *r);
                hand_on(self.xs.as_slice(), &mut self.zs, *q, *r);
            }
            Command::Meas { q, angle, s, t } => {
                let s = take_with(alloc, &mut self.xs, *q, s)?;
                let t = take_with(alloc, &mut self.zs, *q, t)?;
                let measure = Measure {
                    q: *q,
                    angle: *angle,
                    s,
                    t,
                };
                append(&mut self.measures, measure)?;
            }
            Command::FixX { q, s } => add(&mut self.xs, *q, s),
            Command::FixZ { q, s } => add(&mut self.zs, *q, s),
        }
        Ok(())
    }
}

/// The pass over a whole list.
pub(crate) fn pass_over<const H: usize>(
    alloc: Global,
    commands: &[Command<H>],
) -> Result<Pass<H>, Memory>
    requires { AllBelow 256 (map plain_command commands.now) }
    ensures roomy { IfOk result (λ pass. IsRoomy pass) }
    ensures whole { IfOk result (λ pass. LeadsTo pass [] (map plain_command commands.now)) }
{
    let mut pass = Pass::new(alloc)?;
    'commands: for command in commands {
        pass.go_on(alloc, command)?;
    }
    Ok(pass)
}
