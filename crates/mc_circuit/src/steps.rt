//! What the words and the ends of the lines of a circuit do.

ghost use Rattle.std.specs.Prelude.{◌≡◌, ◌↔◌, ℕ, ◌*◌, ◌<◌, List, Option, true, []};
ghost use Rattle.std.specs.Prelude.{length, OnOk, IfErr, IsTrue, Some, None};
ghost use Rattle.std.specs.Prelude.{nat_eq};
ghost use Rattle.std.specs.List.{list_any, list_all};
ghost use Rattle.mc_angle.specs.Angle.{angle_of};
ghost use Rattle.mc_model.specs.Steps.{is_permitted};
ghost use Rattle.mc_model.specs.Names.{is_held, place_of};
ghost use Rattle.mc_text.specs.Rules.{known_name, angle_word, AreNumbers};
ghost use Rattle.mc_text.specs.Stops.{IsStop};
ghost use Rattle.mc_circuit.specs.Roles.{role_of, may_follow, is_gate as gate_word, record_word};
ghost use Rattle.mc_circuit.specs.Judge.{judge_by, lacks_by, second_word};
ghost use Rattle.mc_circuit.specs.Kept.{Moves, Ends, Stands, IsOperand, TakesSecond};

use crate::gate::Gate;
use crate::reader::Reader;
use mc_names::Names;
use mc_text::{Fault, Head, Point, Stop, angle, define, known, unlisted};

/// The number of the limit on the gates of a text.
const GATES: u8 = 3;

/// The most gates of a text.
const MOST_GATES: usize = 32_768;

fn follows(last: Option<Head>, head: Option<Head>) -> bool
    ensures { result ≡ may_follow last head }
{
    match (last, head) {
        (None, Some(Head::In)) => true,
        (Some(Head::In), Some(Head::Plus | Head::J | Head::Cz | Head::Out)) => true,
        (Some(Head::Plus | Head::J | Head::Cz), Some(Head::J | Head::Cz | Head::Out)) => true,
        (Some(Head::Out), Some(Head::End)) => true,
        _ => false,
    }
}

fn is_gate(head: Option<Head>) -> bool
    ensures { result ≡ gate_word head }
{
    match head {
        Some(Head::J | Head::Cz) => true,
        _ => false,
    }
}

/// Judges a record word.
fn take_record(last: Option<Head>, gates: usize, word: &[u8]) -> Result<(), Stop>
    ensures clean { OnOk result (judge_by [] [] None gates last record_word word.now ≡ None) }
    ensures err { IfErr result (λ stop. IsStop stop (judge_by [] [] None gates last record_word word.now)) }
{
    let head = Head::read(word);
    if !follows(last, head) {
        return Err(Stop::Fault(Fault::NotFixed));
    }
    if is_gate(head) && gates >= MOST_GATES {
        return Err(Stop::Limit {
            which: GATES,
            found: 32_769,
        });
    }
    Ok(())
}

/// Takes the first operand of a gate.
fn take_operand(names: &Names, operand: &mut u16, word: &[u8]) -> Result<(), Stop>
    ensures clean { OnOk result (known_name names.now word.now ≡ None) }
    ensures place { OnOk result (place_of names.now word.now ≡ Some operand.new) }
    ensures err { IfErr result (λ stop. IsStop stop (known_name names.now word.now)) }
{
    match known(names, word) {
        Ok(number) => {
            *operand = number;
            Ok(())
        }
        Err(stop) => Err(stop),
    }
}

/// Takes the angle of a gate on a wire.
fn take_angle<const H: usize>(
    wire: u16,
    gate: &mut Option<Gate<H>>,
    word: &[u8],
) -> Result<(), Stop>
    requires { IsTrue (is_permitted H) }
    ensures clean { OnOk result (angle_word word.now ≡ None) }
    ensures gate { OnOk result (gate.new ≡ Some (Gate.J wire (angle_of H word.now))) }
    ensures angle { OnOk result (angle_of H word.now < 2 * H) }
    ensures err { IfErr result (λ stop. IsStop stop (angle_word word.now)) }
{
    match angle(word) {
        Ok(angle) => {
            let _steps = angle.steps();
            *gate = Some(Gate::J { wire, angle });
            Ok(())
        }
        Err(stop) => Err(stop),
    }
}

/// Takes the second operand of a gate, whose first has a number.
fn take_second<const H: usize>(
    names: &Names,
    operand: u16,
    gate: &mut Option<Gate<H>>,
    word: &[u8],
) -> Result<(), Stop>
    ensures ok { OnOk result (TakesSecond names.now operand gate.new word.now) }
    ensures err { IfErr result (λ stop. (first : Option (List ℕ)) → IsOperand names.now first operand
        → IsStop stop (second_word names.now first word.now)) }
{
    match known(names, word) {
        Ok(number) => {
            if number == operand {
                return Err(Stop::Fault(Fault::SameOperand));
            }
            *gate = Some(Gate::Cz {
                a: operand,
                b: number,
            });
            Ok(())
        }
        Err(stop) => Err(stop),
    }
}

/// Judges a word and takes it.
pub(crate) fn take<const H: usize>(
    kept: &mut Reader<H>,
    point: Point,
    word: &[u8],
) -> Result<(), Stop>
    ensures ok { OnOk result (Moves kept.old kept.new point word.now) }
    ensures err { IfErr result (λ stop. (listed : List (List ℕ)) (first : Option (List ℕ))
        → Stands kept.old point listed first
        → IsStop stop (judge_by kept.old.names listed first (length kept.old.gates.items)
        point.last (role_of point) word.now)) }
{
    kept.gate = None;
    if point.count == 0 {
        return take_record(point.last, kept.gates.len(), word);
    }
    match point.head {
        Some(Head::In) => {
            if let Err(stop) = define(&mut kept.names, word) {
                return Err(stop);
            }
            kept.inputs += 1;
            Ok(())
        }
        Some(Head::Plus) => {
            if let Err(stop) = define(&mut kept.names, word) {
                return Err(stop);
            }
            Ok(())
        }
        Some(Head::J) => match point.count {
            1 => take_operand(&kept.names, &mut kept.operand, word),
            2 => take_angle(kept.operand, &mut kept.gate, word),
            _ => Err(Stop::Fault(Fault::Surplus)),
        },
        Some(Head::Cz) => match point.count {
            1 => take_operand(&kept.names, &mut kept.operand, word),
            2 => take_second(&kept.names, kept.operand, &mut kept.gate, word),
            _ => Err(Stop::Fault(Fault::Surplus)),
        },
        Some(Head::Out) => {
            let number = match unlisted(&kept.names, kept.outputs.as_slice(), word) {
                Ok(number) => number,
                Err(stop) => return Err(stop),
            };
            match kept.outputs.push(number) {
                Ok(_) => Ok(()),
                Err(_) => Err(Stop::Memory),
            }
        }
        _ => Err(Stop::Fault(Fault::Surplus)),
    }
}

fn has(numbers: &[u16], number: u16) -> bool
    ensures { result ≡ list_any (λ r. nat_eq r number) numbers.now }
{
    numbers.contains(&number)
}

fn has_each(numbers: &[u16], count: u16) -> bool
    ensures { IsTrue result ↔ ((q : ℕ) → q < count → list_any (λ r. nat_eq r q) numbers.now ≡ true) }
{
    'numbers: for q in 0..count {
        if !has(numbers, q) {
            return false;
        }
    }
    true
}

/// Whether each of the names is listed.
fn lists_each(names: &Names, numbers: &[u16]) -> bool
    ensures { (listed : List (List ℕ)) → AreNumbers names.now listed numbers.now
        → result ≡ list_all (is_held listed) names.now }
{
    has_each(numbers, names.len())
}

/// Judges the end of a line.
fn end_words(names: &Names, outputs: &[u16], point: Point) -> Result<(), Stop>
    ensures clean { OnOk result ((listed : List (List ℕ)) → AreNumbers names.now listed outputs.now
        → lacks_by names.now listed (role_of point) ≡ None) }
    ensures err { IfErr result (λ stop. (listed : List (List ℕ)) → AreNumbers names.now listed outputs.now
        → IsStop stop (lacks_by names.now listed (role_of point))) }
{
    if point.count == 0 {
        return Ok(());
    }
    match (point.head, point.count) {
        (Some(Head::J | Head::Cz), 1 | 2) => Err(Stop::Fault(Fault::LineEnds)),
        (Some(Head::Out), _) => {
            if lists_each(names, outputs) {
                Ok(())
            } else {
                Err(Stop::Fault(Fault::OutputsLack))
            }
        }
        _ => Ok(()),
    }
}

/// Judges the end of a line and takes its gate.
pub(crate) fn end_gate<const H: usize>(kept: &mut Reader<H>, point: Point) -> Result<(), Stop>
    ensures ok { OnOk result (Ends kept.old kept.new point) }
    ensures err { IfErr result (λ stop. (listed : List (List ℕ))
        → AreNumbers kept.old.names listed kept.old.outputs.items
        → IsStop stop (lacks_by kept.old.names listed (role_of point))) }
{
    if let Err(stop) = end_words(&kept.names, kept.outputs.as_slice(), point) {
        return Err(stop);
    }
    match kept.gate {
        None => Ok(()),
        Some(gate) => {
            kept.gate = None;
            match kept.gates.push(gate) {
                Ok(_) => Ok(()),
                Err(_) => Err(Stop::Memory),
            }
        }
    }
}
