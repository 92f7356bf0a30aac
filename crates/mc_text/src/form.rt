//! The words of a header behind the kind.

ghost use Rattle.std.specs.Prelude.{◌≡◌, ℕ, List, [], ◌∷◌, None, OnOk, IfErr, true};
ghost use Rattle.std.specs.Prelude.{codes, Some, if◌then◌else◌};
ghost use Rattle.mc_text.specs.Heads.{is_word};
ghost use Rattle.mc_text.specs.Headers.{plain_form, is_turn, half_by};
ghost use Rattle.mc_text.specs.Headers.{form_judge, version_behind};
ghost use Rattle.mc_text.specs.Stops.{IsStop};

use crate::fault::{Fault, Stop};
use crate::point::Point;
use crate::section::Section;

/// Whether a header may say how many steps a turn has, by the words `turn 8` or `turn 16`.
#[derive(Clone, Copy, Debug, PartialEq, Eq)]
pub enum Turning {
    /// No word may stand behind the version.
    Unsaid,
    /// Either number may stand there.
    Said,
    /// The same, where the number has to be that of so many steps in half a turn.
    Like(usize),
}

/// What a header may say behind its kind: the version 1, or with `second` also 2, and the step.
#[derive(Clone, Copy, Debug, PartialEq, Eq)]
pub struct Form {
    pub second: bool,
    pub turning: Turning,
}

impl Form {
    /// Version 1 alone, and no step.
    pub fn plain() -> Form
        ensures { result ≡ plain_form }
    {
        Form {
            second: false,
            turning: Turning::Unsaid,
        }
    }
}

/// What is kept of the words behind the kind: the version, and how many steps half a turn has.
#[derive(Clone, Copy)]
pub(crate) struct Behind {
    pub(crate) form: Form,
    pub(crate) version: u8,
    pub(crate) half: usize,
}

/// Takes a version; `NotVersion` where it is none that is permitted.
fn take_version(form: Form, version: &mut u8, word: &[u8]) -> Result<(), Stop>
    ensures clean { OnOk result (form_judge form [] word.now ≡ None) }
    ensures version { OnOk result (version.new ≡ version_behind (word.now ∷ [])) }
    ensures err { IfErr result (λ stop. IsStop stop (form_judge form [] word.now)) }
{
    match word {
        b"1" => {
            *version = 1;
            Ok(())
        }
        b"2" if form.second => {
            *version = 2;
            Ok(())
        }
        _ => Err(Stop::Fault(Fault::NotVersion)),
    }
}

/// Takes the word `turn`; `Surplus` where it may not stand there, or another word does.
fn take_turn(form: Form, word: &[u8]) -> Result<(), Stop>
    ensures clean { OnOk result ((version : List ℕ) → form_judge form (version ∷ []) word.now ≡ None) }
    ensures turn { OnOk result (is_word (codes "turn") word.now ≡ true) }
    ensures err { IfErr result (λ stop. (version : List ℕ) → IsStop stop (form_judge form (version ∷ []) word.now)) }
{
    if form.turning != Turning::Unsaid && word == b"turn".as_slice() {
        return Ok(());
    }
    Err(Stop::Fault(Fault::Surplus))
}

/// Half of the number of steps in a turn, where a word spells such a number.
fn read_half(word: &[u8]) -> Option<usize>
    ensures { result ≡ (if is_turn word.now then Some (half_by word.now) else None) }
{
    match word {
        b"8" => Some(4),
        b"16" => Some(8),
        _ => None,
    }
}

/// Takes the number of steps in a turn; `NotNumber` where it is none, `StepDiffers` where another
/// one is due.
fn take_half(form: Form, half: &mut usize, word: &[u8]) -> Result<(), Stop>
    ensures clean { OnOk result ((version turn : List ℕ) → form_judge form (version ∷ turn ∷ []) word.now ≡ None) }
    ensures half { OnOk result (half.new ≡ half_by word.now) }
    ensures err { IfErr result (λ stop. (version turn : List ℕ)
        → IsStop stop (form_judge form (version ∷ turn ∷ []) word.now)) }
{
    let Some(found) = read_half(word) else {
        return Err(Stop::Fault(Fault::NotNumber));
    };
    match form.turning {
        Turning::Like(due) if found != due => Err(Stop::Fault(Fault::StepDiffers)),
        _ => {
            *half = found;
            Ok(())
        }
    }
}

impl Section for Behind {
    ghost use Rattle.mc_text.specs.Headers.{form_rules, IsBehind};

    ghost rules = { λ k. form_rules k.form };

    ghost means = { IsBehind };

    fn word(&mut self, point: Point, word: &[u8]) -> Result<(), Stop> {
        match point.count {
            0 => match take_version(self.form, &mut self.version, word) {
                Ok(()) => Ok(()),
                Err(stop) => Err(stop),
            },
            1 => match take_turn(self.form, word) {
                Ok(()) => Ok(()),
                Err(stop) => Err(stop),
            },
            2 => match take_half(self.form, &mut self.half, word) {
                Ok(()) => Ok(()),
                Err(stop) => Err(stop),
            },
            _ => Err(Stop::Fault(Fault::Surplus)),
        }
    }

    fn end_line(&mut self, point: Point) -> Result<(), Stop> {
        match point.count {
            0 => Err(Stop::Fault(Fault::LineEnds)),
            2 => Err(Stop::Fault(Fault::LineEnds)),
            _ => Ok(()),
        }
    }
}
