//! What the words and the ends of the lines of a gate list do.

ghost use Rattle.std.specs.Prelude.{◌≡◌, ◌↔◌, ℕ, ◌<◌, List, true, ◌++◌, ◌∷◌, [], length, map, OnOk};
ghost use Rattle.std.specs.Prelude.{IfErr, IsTrue, None, nat_eq, option_to_list};
ghost use Rattle.std.specs.List.{list_any, list_all};
ghost use Rattle.mc_model.specs.Names.{is_held};
ghost use Rattle.mc_text.specs.Rules.{listed_name, AreNumbers};
ghost use Rattle.mc_text.specs.Stops.{IsStop};
ghost use Rattle.mc_gates.specs.Ops.{plain_op};
ghost use Rattle.mc_gates_text.specs.Words.{op_with};
ghost use Rattle.mc_gates_text.specs.Roles.{goes_on as body_word, role_of, may_follow, record_word};
ghost use Rattle.mc_gates_text.specs.Judge.{judge_by, lacks_by, operand_word};
ghost use Rattle.mc_gates_text.specs.Kept.{Moves, Ends, Stands, Lists, state_of};

use crate::reader::Reader;
use crate::word::{arity, is_gate, op_of};
use mc_gates::Op;
use mc_names::Names;
use mc_text::{Fault, Head, Point, Stop, define, known, unlisted};

/// The number of the limit on the gates of a text.
const GATES: u8 = 3;

/// The most gates of a text.
const MOST_GATES: usize = 32_768;

/// A gate word or the one of the outputs.
fn goes_on(head: Option<Head>) -> bool
    ensures { result ≡ body_word head }
{
    is_gate(head) || head == Some(Head::Out)
}

fn follows(last: Option<Head>, head: Option<Head>) -> bool
    ensures { result ≡ may_follow last head }
{
    match last {
        None => head == Some(Head::In),
        Some(Head::In) => head == Some(Head::Plus) || goes_on(head),
        Some(Head::Plus) => goes_on(head),
        Some(Head::Out) => head == Some(Head::End),
        _ => is_gate(last) && goes_on(head),
    }
}

/// Judges a record word.
fn take_record(last: Option<Head>, gates: usize, word: &[u8]) -> Result<(), Stop>
    ensures clean { OnOk result (judge_by [] [] [] gates last record_word word.now ≡ None) }
    ensures err { IfErr result (λ stop. IsStop stop (judge_by [] [] [] gates last record_word word.now)) }
{
    let head = Head::read(word);
    if !follows(last, head) {
        return Err(Stop::Fault(Fault::NotFixed));
    }
    if is_gate(head) && gates >= MOST_GATES {
        return Err(Stop::Limit {
            which: GATES,
            found: 32_769,
        });
    }
    Ok(())
}

/// Takes a name that is listed as an output.
fn take_output(names: &Names, outputs: &mut Vec<u16>, word: &[u8]) -> Result<(), Stop>
    ensures clean { OnOk result ((listed : List (List ℕ)) → AreNumbers names.now listed outputs.old.items
        → listed_name names.now listed word.now ≡ None) }
    ensures listed { OnOk result (Lists names.now outputs.old.items outputs.new.items (word.now ∷ [])) }
    ensures err { IfErr result (λ stop. (listed : List (List ℕ)) → AreNumbers names.now listed outputs.old.items
        → IsStop stop (listed_name names.now listed word.now)) }
{
    let number = match unlisted(names, outputs.as_slice(), word) {
        Ok(number) => number,
        Err(stop) => return Err(stop),
    };
    match outputs.push(number) {
        Ok(_) => Ok(()),
        Err(_) => Err(Stop::Memory),
    }
}

/// Takes an operand, which is none of the earlier ones.
fn take_operand(names: &Names, operands: &mut Vec<u16>, word: &[u8]) -> Result<(), Stop>
    ensures clean { OnOk result ((earlier : List (List ℕ)) → AreNumbers names.now earlier operands.old.items
        → operand_word names.now earlier word.now ≡ None) }
    ensures listed { OnOk result (Lists names.now operands.old.items operands.new.items (word.now ∷ [])) }
    ensures err { IfErr result (λ stop. (earlier : List (List ℕ)) → AreNumbers names.now earlier operands.old.items
        → IsStop stop (operand_word names.now earlier word.now)) }
{
    let number = match known(names, word) {
        Ok(number) => number,
        Err(stop) => return Err(stop),
    };
    if has(operands.as_slice(), number) {
        return Err(Stop::Fault(Fault::SameOperand));
    }
    match operands.push(number) {
        Ok(_) => Ok(()),
        Err(_) => Err(Stop::Memory),
    }
}

/// Judges a word and takes it.
pub(crate) fn take(kept: &mut Reader, point: Point, word: &[u8]) -> Result<(), Stop>
    ensures clean { OnOk result ((listed earlier : List (List ℕ)) → Stands (state_of kept.old) listed earlier
        → judge_by kept.old.names listed earlier (length kept.old.ops.items)
        point.last (role_of point) word.now ≡ None) }
    ensures ok { OnOk result (Moves (state_of kept.old) (state_of kept.new) point word.now) }
    ensures err { IfErr result (λ stop. (listed earlier : List (List ℕ)) → Stands (state_of kept.old) listed earlier
        → IsStop stop (judge_by kept.old.names listed earlier (length kept.old.ops.items)
        point.last (role_of point) word.now)) }
{
    if point.count == 0 {
        return take_record(point.last, kept.ops.len(), word);
    }
    match point.head {
        Some(Head::In) => {
            if let Err(stop) = define(&mut kept.names, word) {
                return Err(stop);
            }
            kept.inputs += 1;
            Ok(())
        }
        Some(Head::Plus) => {
            if let Err(stop) = define(&mut kept.names, word) {
                return Err(stop);
            }
            Ok(())
        }
        Some(Head::Out) => take_output(&kept.names, &mut kept.outputs, word),
        head => {
            if point.count > arity(head) {
                return Err(Stop::Fault(Fault::Surplus));
            }
            take_operand(&kept.names, &mut kept.operands, word)
        }
    }
}

fn has(numbers: &[u16], number: u16) -> bool
    ensures { result ≡ list_any (λ r. nat_eq r number) numbers.now }
{
    numbers.contains(&number)
}

fn has_each(numbers: &[u16], count: u16) -> bool
    ensures { IsTrue result ↔ ((q : ℕ) → q < count → list_any (λ r. nat_eq r q) numbers.now ≡ true) }
{
    'numbers: for q in 0..count {
        if !has(numbers, q) {
            return false;
        }
    }
    true
}

/// Whether each of the names is listed.
fn lists_each(names: &Names, numbers: &[u16]) -> bool
    ensures { (listed : List (List ℕ)) → AreNumbers names.now listed numbers.now
        → result ≡ list_all (is_held listed) names.now }
{
    has_each(numbers, names.len())
}

/// Judges the end of a line.
fn end_words(names: &Names, outputs: &[u16], point: Point) -> Result<(), Stop>
    ensures clean { OnOk result ((listed : List (List ℕ)) → AreNumbers names.now listed outputs.now
        → lacks_by names.now listed (role_of point) ≡ None) }
    ensures err { IfErr result (λ stop. (listed : List (List ℕ)) → AreNumbers names.now listed outputs.now
        → IsStop stop (lacks_by names.now listed (role_of point))) }
{
    if point.count == 0 {
        return Ok(());
    }
    match point.head {
        Some(Head::In | Head::Plus) => Ok(()),
        Some(Head::Out) => {
            if lists_each(names, outputs) {
                Ok(())
            } else {
                Err(Stop::Fault(Fault::OutputsLack))
            }
        }
        head => {
            if point.count <= arity(head) {
                return Err(Stop::Fault(Fault::LineEnds));
            }
            Ok(())
        }
    }
}

/// Takes the operation of a line, where it has one.
fn take_op(ops: &mut Vec<Op>, head: Option<Head>, operands: &[u16]) -> Result<(), Stop>
    ensures added { OnOk result (map plain_op ops.new.items ≡
        map plain_op ops.old.items ++ option_to_list (op_with head operands.now)) }
    ensures err { IfErr result (λ stop. stop ≡ Stop.Memory) }
{
    match op_of(head, operands) {
        None => Ok(()),
        Some(op) => match ops.push(op) {
            Ok(_) => Ok(()),
            Err(_) => Err(Stop::Memory),
        },
    }
}

/// Judges the end of a line and takes its operation.
pub(crate) fn end_op(kept: &mut Reader, point: Point) -> Result<(), Stop>
    ensures clean { OnOk result ((listed : List (List ℕ)) → AreNumbers kept.old.names listed kept.old.outputs.items
        → lacks_by kept.old.names listed (role_of point) ≡ None) }
    ensures ok { OnOk result (Ends (state_of kept.old) (state_of kept.new) point) }
    ensures err { IfErr result (λ stop. (listed : List (List ℕ))
        → AreNumbers kept.old.names listed kept.old.outputs.items
        → IsStop stop (lacks_by kept.old.names listed (role_of point))) }
{
    if let Err(stop) = end_words(&kept.names, kept.outputs.as_slice(), point) {
        return Err(stop);
    }
    if let Err(stop) = take_op(&mut kept.ops, point.head, kept.operands.as_slice()) {
        return Err(stop);
    }
    kept.operands.clear();
    Ok(())
}
