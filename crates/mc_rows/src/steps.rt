//! What the words of a row do.

ghost use Rattle.std.specs.Prelude.{◌≡◌, ◌++◌, ◌∷◌, [], List, ℕ, ◌&&◌, ◌⊎◌, true, None, OnOk};
ghost use Rattle.std.specs.Prelude.{IfErr};
ghost use Rattle.mc_model.specs.Numbers.{is_member};
ghost use Rattle.mc_angle.specs.Number.{number_of};
ghost use Rattle.mc_text.specs.Heads.{head_of};
ghost use Rattle.mc_text.specs.Rules.{number_in, number_word};
ghost use Rattle.mc_text.specs.Stops.{IsStop};
ghost use Rattle.mc_rows.specs.declared.row.Row.{Row as PlainRow};
ghost use Rattle.mc_rows.specs.Rows.{is_one};
ghost use Rattle.mc_rows.specs.Judge.{head_word, name_word, member_word, lacks_by};
ghost use Rattle.mc_rows.specs.Kept.{AreMembers};

use crate::kind::Rows;
use crate::row::{Role, Row};
use mc_names::Names;
use mc_signal::QSet;
use mc_text::{Fault, Head, Stop, known, number};

/// Takes a record word.
pub(crate) fn take_head<K: Rows>(
    kind: &K,
    row: &mut Row,
    last: Option<Head>,
    word: &[u8],
) -> Result<(), Stop>
    ensures clean { OnOk result ((rows : List PlainRow) → K.holds kind.now rows
        → head_word (K.kind kind.now) rows last word.now ≡ None) }
    ensures row { OnOk result (row.new ≡ record row.old { head = head_of word.now }) }
    ensures err { IfErr result (λ stop. (rows : List PlainRow) → K.holds kind.now rows
        → IsStop stop (head_word (K.kind kind.now) rows last word.now)) }
{
    let head = Head::read(word);
    if !kind.follows(last, head) {
        return Err(Stop::Fault(Fault::NotFixed));
    }
    match kind.bar_head(head) {
        Ok(()) => {
            row.head = head;
            Ok(())
        }
        Err(stop) => Err(stop),
    }
}

/// Takes a number.
pub(crate) fn take_number(row: &mut Row, word: &[u8]) -> Result<(), Stop>
    ensures clean { OnOk result (number_word word.now ≡ None) }
    ensures row { OnOk result (row.new ≡ record row.old { number = number_of word.now }) }
    ensures err { IfErr result (λ stop. IsStop stop (number_word word.now)) }
{
    match number(word) {
        Ok(number) => {
            row.number = number;
            Ok(())
        }
        Err(stop) => Err(stop),
    }
}

/// Takes the name of a row.
pub(crate) fn take_name<K: Rows>(
    kind: &K,
    names: &Names,
    row: &mut Row,
    word: &[u8],
) -> Result<(), Stop>
    ensures clean { OnOk result ((rows : List PlainRow) → K.holds kind.now rows
        → name_word (K.kind kind.now) names.now rows row.old word.now ≡ None) }
    ensures row { OnOk result (row.new ≡ record row.old { name = number_in names.now word.now }) }
    ensures err { IfErr result (λ stop. (rows : List PlainRow) → K.holds kind.now rows
        → IsStop stop (name_word (K.kind kind.now) names.now rows row.old word.now)) }
{
    let number = match known(names, word) {
        Ok(number) => number,
        Err(stop) => return Err(stop),
    };
    match kind.bar_named(row.head, row.number, number) {
        Ok(()) => {
            row.name = number;
            Ok(())
        }
        Err(stop) => Err(stop),
    }
}

/// Takes a member of a set, which is the name of a number or the word `!`.
pub(crate) fn take_member<K: Rows>(
    kind: &K,
    names: &Names,
    set: &mut QSet,
    constant: &mut bool,
    word: &[u8],
) -> Result<(), Stop>
    ensures clean { OnOk result ((rows : List PlainRow) (list : List (List ℕ))
        → K.holds kind.now rows → AreMembers names.now list set.old constant.old
        → member_word (K.kind kind.now) names.now rows list word.now ≡ None) }
    ensures joins { OnOk result ((list : List (List ℕ))
        → AreMembers names.now list set.old constant.old
        → AreMembers names.now (list ++ word.now ∷ []) set.new constant.new) }
    ensures listed { OnOk result ((rows : List PlainRow) → K.holds kind.now rows
        → (q : ℕ) → is_member set.new q ≡ true → (is_member set.old q ≡ true)
        ⊎ ((K.kind kind.now).bars.listed rows q ≡ None)) }
    ensures err { IfErr result (λ stop. (rows : List PlainRow) (list : List (List ℕ))
        → K.holds kind.now rows → AreMembers names.now list set.old constant.old
        → IsStop stop (member_word (K.kind kind.now) names.now rows list word.now)) }
{
    let second = kind.second();
    if is_constant(second, word) {
        if *constant {
            return Err(Stop::Fault(Fault::ListedTwice));
        }
        *constant = true;
        return Ok(());
    }
    // the proof needs that there are at most 256 names
    let _count = names.len();
    let number = match known(names, word) {
        Ok(number) => number,
        Err(stop) => return Err(stop),
    };
    if set.has(number) {
        return Err(Stop::Fault(Fault::ListedTwice));
    }
    if let Err(stop) = kind.bar_listed(number) {
        return Err(stop);
    }
    match set.toggle(number) {
        Ok(()) => Ok(()),
        Err(_) => Err(Stop::Memory),
    }
}

/// Whether a word is that of the constant of a signal, where that is permitted.
fn is_constant(second: bool, word: &[u8]) -> bool
    ensures { result ≡ (second && is_one word.now) }
{
    second && word == b"!".as_slice()
}

/// Judges the end of a line.
pub(crate) fn check_end(role: Role) -> Result<(), Stop>
    ensures clean { OnOk result (lacks_by role ≡ None) }
    ensures err { IfErr result (λ stop. IsStop stop (lacks_by role)) }
{
    match role {
        Role::Member => Ok(()),
        Role::Surplus => Ok(()),
        _ => Err(Stop::Fault(Fault::LineEnds)),
    }
}
