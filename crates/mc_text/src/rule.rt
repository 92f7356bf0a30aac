//! Words that several kinds of section judge in the same way.

ghost use Rattle.std.specs.Prelude.{◌≡◌, ◌++◌, ◌∷◌, [], ◌<◌, ◌≤◌, List, ℕ, IsTrue, length, None};
ghost use Rattle.std.specs.Prelude.{Some, OnOk, IfOk, IfErr, OnErr, true};
ghost use Rattle.mc_model.specs.Names.{is_name, place_of};
ghost use Rattle.mc_model.specs.Steps.{is_permitted};
ghost use Rattle.mc_angle.specs.Angle.{angle_of};
ghost use Rattle.mc_angle.specs.Number.{number_of};
ghost use Rattle.mc_text.specs.Rules.{new_name, known_name, listed_name, fixed_word, angle_word};
ghost use Rattle.mc_text.specs.Rules.{number_word, AreNumbers};
ghost use Rattle.mc_text.specs.Stops.{IsStop};

use crate::fault::{Fault, Stop};
use mc_angle::{Angle, read_number};
use mc_names::{Name, Names, NamesEnd};

/// The number of the limit on the names of a text.
const NAMES: u8 = 2;

/// One more than the names that a text may define.
const TOO_MANY: u64 = 257;

/// Defines a name and gives its number. `NotName` where the word is none, `DefinedTwice` where it
/// is defined, and the limit on names where 256 are.
pub fn define(names: &mut Names, word: &[u8]) -> Result<u16, Stop>
    ensures clean { OnOk result (new_name names.old word.now ≡ None) }
    ensures added { OnOk result (names.new ≡ names.old ++ word.now ∷ []) }
    ensures number { IfOk result (λ number. number ≡ length names.old) }
    ensures name { OnOk result (is_name word.now ≡ true) }
    ensures few { OnOk result (length names.old < 256) }
    ensures err { IfErr result (λ stop. IsStop stop (new_name names.old word.now)) }
    ensures same { OnErr result (names.new ≡ names.old) }
{
    let Some(name) = Name::read(word) else {
        return Err(Stop::Fault(Fault::NotName));
    };
    match names.add(name) {
        Ok(number) => Ok(number),
        Err(NamesEnd::Twice(_)) => Err(Stop::Fault(Fault::DefinedTwice)),
        Err(NamesEnd::Full) => Err(Stop::Limit {
            which: NAMES,
            found: TOO_MANY,
        }),
        Err(NamesEnd::Memory) => Err(Stop::Memory),
    }
}

/// The number of a name that is used. `NotName` where the word is none, `NotDefined` where it is
/// not defined.
pub fn known(names: &Names, word: &[u8]) -> Result<u16, Stop>
    ensures clean { OnOk result (known_name names.now word.now ≡ None) }
    ensures name { OnOk result (is_name word.now ≡ true) }
    ensures place { IfOk result (λ number. place_of names.now word.now ≡ Some number) }
    ensures err { IfErr result (λ stop. IsStop stop (known_name names.now word.now)) }
{
    let Some(name) = Name::read(word) else {
        return Err(Stop::Fault(Fault::NotName));
    };
    match names.find(&name) {
        Some(number) => Ok(number),
        None => Err(Stop::Fault(Fault::NotDefined)),
    }
}

/// The number of a name that is used and is not yet among the names of a list, of which these are
/// the numbers; else `ListedTwice`.
pub fn unlisted(names: &Names, listed: &[u16], word: &[u8]) -> Result<u16, Stop>
    ensures clean { OnOk result ((list : List (List ℕ)) → AreNumbers names.now list listed.now
        → listed_name names.now list word.now ≡ None) }
    ensures name { OnOk result (is_name word.now ≡ true) }
    ensures place { IfOk result (λ number. place_of names.now word.now ≡ Some number) }
    ensures err { IfErr result (λ stop. (list : List (List ℕ))
        → AreNumbers names.now list listed.now
        → IsStop stop (listed_name names.now list word.now)) }
{
    match known(names, word) {
        Ok(number) => {
            if listed.contains(&number) {
                return Err(Stop::Fault(Fault::ListedTwice));
            }
            Ok(number)
        }
        Err(stop) => Err(stop),
    }
}

/// A fixed word; `NotFixed` where another one stands there.
pub fn fixed(word: &[u8], due: &[u8]) -> Result<(), Stop>
    ensures clean { OnOk result (fixed_word due.now word.now ≡ None) }
    ensures err { IfErr result (λ stop. IsStop stop (fixed_word due.now word.now)) }
{
    if word == due {
        Ok(())
    } else {
        Err(Stop::Fault(Fault::NotFixed))
    }
}

/// An angle; `NotAngle` where the word spells none.
pub fn angle<const H: usize>(word: &[u8]) -> Result<Angle<H>, Stop>
    requires { IsTrue (is_permitted H) }
    ensures clean { OnOk result (angle_word word.now ≡ None) }
    ensures value { IfOk result (λ angle. angle ≡ angle_of H word.now) }
    ensures err { IfErr result (λ stop. IsStop stop (angle_word word.now)) }
{
    match Angle::read(word) {
        Some(angle) => Ok(angle),
        None => Err(Stop::Fault(Fault::NotAngle)),
    }
}

/// A number of at most four digits; `NotNumber` where the word spells none.
pub fn number(word: &[u8]) -> Result<u16, Stop>
    ensures clean { OnOk result (number_word word.now ≡ None) }
    ensures value { IfOk result (λ number. number ≡ number_of word.now) }
    ensures within { IfOk result (λ number. number ≤ 9999) }
    ensures err { IfErr result (λ stop. IsStop stop (number_word word.now)) }
{
    match read_number(word) {
        Some(number) => Ok(number),
        None => Err(Stop::Fault(Fault::NotNumber)),
    }
}
