//! Angles.

ghost use Rattle.std.specs.Prelude.{◌≡◌, ◌+◌, ◌-◌, ◌*◌, ◌%◌, ◌<◌, IsTrue, IfSome, is_some};
ghost use Rattle.mc_model.specs.Steps.{is_permitted};
ghost use Rattle.mc_model.specs.Phase.{negated};
ghost use Rattle.mc_angle.specs.Angle.{steps_of, is_angle, angle_of};

use crate::number::read_number;
use std::marker::Model;

/// An angle in whole steps, of which `H` make half a turn: from 0 to one step less than a turn.
#[derive(Clone, Copy, Debug, PartialEq, Eq)]
pub struct Angle<const H: usize> {
    steps: u8,
}

impl<const H: usize> Model for Angle<H> {
    ghost use Rattle.std.specs.Prelude.{ℕ, ◌*◌, ◌<◌, IsTrue};
    ghost use Rattle.mc_model.specs.Steps.{is_permitted};

    ghost Value = { ℕ };

    ghost view = { λ a. a.steps };

    ghost invariant = { λ a. (a.steps < 2 * H) × IsTrue (is_permitted H) };

    ghost inverse = { λ n. record { steps = n } };
}

impl<const H: usize> Angle<H> {
    /// The angle of a whole number of steps, reduced modulo a turn.
    pub fn of(steps: i64) -> Angle<H>
        requires { IsTrue (is_permitted H) }
        ensures { result ≡ steps_of H steps }
    {
        Angle {
            steps: steps.rem_euclid(2 * H as i64) as u8,
        }
    }

    /// The angle that a word spells as an optional `-` and 1 to 4 digits, which count steps; `None`
    /// for any other word.
    pub fn read(word: &[u8]) -> Option<Angle<H>>
        requires { IsTrue (is_permitted H) }
        ensures angle { is_some result ≡ is_angle word.now }
        ensures value { IfSome result (λ angle. angle ≡ angle_of H word.now) }
    {
        match word {
            [b'-', digits @ ..] => match read_number(digits) {
                Some(number) => Some(Angle::of(-(number as i64))),
                None => None,
            },
            _ => match read_number(word) {
                Some(number) => Some(Angle::of(number as i64)),
                None => None,
            },
        }
    }

    /// How many steps the angle has, fewer than a turn.
    pub fn steps(&self) -> u8
        ensures steps { result ≡ self.now }
        ensures within { result < 2 * H }
        ensures permitted { IsTrue (is_permitted H) }
    {
        self.steps
    }

    /// The sum of two angles, modulo a turn.
    pub fn add(&self, other: &Angle<H>) -> Angle<H>
        ensures { result ≡ (self.now + other.now) % (2 * H) }
    {
        Angle {
            steps: (self.steps + other.steps) % (2 * H as u8),
        }
    }

    /// The angle that adds up with this one to a whole turn or none.
    #[tactic(auto, unfolding(mc_model::specs::Phase::negated))]
    pub fn neg(&self) -> Angle<H>
        ensures value { result ≡ negated H self.now }
        ensures undoes { (self.now + result) % (2 * H) ≡ 0 }
    {
        let steps = self.steps;
        let turn = 2 * H as u8;
        Angle {
            steps: (turn - steps) % turn,
        }
    }

    /// The angle with half a turn added.
    pub fn half_turn(&self) -> Angle<H>
        ensures { result ≡ (self.now + H) % (2 * H) }
    {
        Angle {
            steps: (self.steps + H as u8) % (2 * H as u8),
        }
    }
}
