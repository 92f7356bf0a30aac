//! Signal shifting.

ghost use Rattle.std.specs.Prelude.{◌≡◌, ℕ, ◌<◌, [], ◌∷◌, ◌++◌, Bool, List, IfOk, OnOk, length};
ghost use Rattle.std.specs.Prelude.{map};
ghost use Rattle.mc_model.specs.Bits.{Bits};
ghost use Rattle.mc_model.specs.Ring.{ring};
ghost use Rattle.mc_model.specs.Pattern.{Pattern};
ghost use Rattle.mc_model.specs.Amplitude.{branch_map};
ghost use Rattle.mc_model.specs.Valid.{measured};
ghost use Rattle.mc_model.specs.Shift.{change_of, new_outcomes, IsShifted, IsShiftedForm};
ghost use Rattle.mc_model.specs.Shift.{IsInShiftedForm};
ghost use Rattle.mc_rules.specs.Parts.{measurements_of, corrections_of, IsInParts};
ghost use Rattle.mc_standard.specs.StandardForms.{IsStandardForm};
ghost use Rattle.mc_standard.specs.Plain.{plain_measure, plain_fix};
ghost use Rattle.mc_shift.specs.Laws.{IsValidShiftedForm};
ghost use Rattle.mc_shift.specs.Shifts.{signals_of, IsPutIn, IsFixPutIn, TellsOld};

use mc_model::Memory;
use mc_pattern::Change;
use mc_rules::settled_is_standard;
use mc_signal::Signal;
use mc_standard::{Fix, Measure, Standard, Sum};
use std::alloc::Global;

/// The most qubits of a pattern.
const MOST_QUBITS: u16 = 256;

/// Adds an item, which goes last. An item that finds no memory is dropped.
fn append<T: Drop>(items: &mut Vec<T>, item: T) -> Result<(), Memory>
    ensures { OnOk result (items.new.items ≡ items.old.items ++ item ∷ []) }
{
    match items.push(item) {
        Ok(()) => Ok(()),
        Err(_) => Err(Memory),
    }
}

/// An empty sum for each qubit.
fn no_shifts(alloc: Global) -> Result<Vec<Sum>, Memory>
    ensures { IfOk result (λ shifts. length shifts.items ≡ 256) }
{
    let mut shifts = Vec::new(alloc);
    'qubits: for _ in 0..MOST_QUBITS {
        append(&mut shifts, Sum::new())?;
    }
    Ok(shifts)
}

/// The signal with the sum of each member added.
fn put_in(shifts: &[Sum], s: &Signal) -> Sum
    requires { length shifts.now ≡ 256 }
    ensures { IsPutIn (signals_of shifts.now) s.now result }
{
    let members = s.members();
    let mut sum = Sum::of(s);
    'members: for i in 0..members.len() {
        sum.add_sum(&shifts[members.get(i) as usize]);
    }
    sum
}

/// The measurements without second signals, which are shifted into later signals: `shifts` gets what tells the outcomes from the
/// new ones, and `change` how these come about.
fn shift_measures<const H: usize>(
    alloc: Global,
    p: &Standard<H>,
    shifts: &mut [Sum],
    change: &mut Change,
) -> Result<Vec<Measure<H>>, Memory>
    requires standard { IsStandardForm H p.now }
    requires parts { IsInParts p.now.commands }
    requires long { length shifts.old ≡ 256 }
    requires fresh { change.old ≡ [] }
    ensures measures { IfOk result (λ measures. IsShifted (change_of p.now.commands)
        (measurements_of p.now.commands) (map plain_measure measures.items)) }
    ensures tells { OnOk result (TellsOld (change_of p.now.commands)
        (measured (measurements_of p.now.commands)) (signals_of shifts.new)) }
    ensures change { OnOk result (change.new ≡ change_of (measurements_of p.now.commands)) }
{
    let mut measures = Vec::new(alloc);
    'measures: for measure in p.measures() {
        let shifted = Measure {
            q: measure.q,
            angle: measure.angle,
            s: put_in(shifts, &measure.s).signal(alloc)?,
            t: Signal::empty(alloc),
        };
        append(&mut measures, shifted)?;
        change.push(measure.q, measure.t.copy()?)?;
        shifts[measure.q as usize] = put_in(shifts, &measure.t);
    }
    Ok(measures)
}

/// The correction with the signals of its members added.
fn shift_fix(alloc: Global, shifts: &[Sum], fix: &Fix) -> Result<Fix, Memory>
    requires { length shifts.now ≡ 256 }
    ensures { IfOk result (λ shifted.
        IsFixPutIn (signals_of shifts.now) (plain_fix fix.now) (plain_fix shifted)) }
{
    match fix {
        Fix::X { q, s } => Ok(Fix::X {
            q: *q,
            s: put_in(shifts, s).signal(alloc)?,
        }),
        Fix::Z { q, s } => Ok(Fix::Z {
            q: *q,
            s: put_in(shifts, s).signal(alloc)?,
        }),
    }
}

/// The corrections, of which each signal has at the new outcomes the value that the old one had at the old outcomes.
fn shift_fixes<const H: usize>(
    alloc: Global,
    p: &Standard<H>,
    shifts: &[Sum],
) -> Result<Vec<Fix>, Memory>
    requires standard { IsStandardForm H p.now }
    requires parts { IsInParts p.now.commands }
    requires long { length shifts.now ≡ 256 }
    requires tells { TellsOld (change_of p.now.commands)
        (measured (measurements_of p.now.commands)) (signals_of shifts.now) }
    ensures { IfOk result (λ fixes. IsShifted (change_of p.now.commands)
        (corrections_of p.now.commands) (map plain_fix fixes.items)) }
{
    let mut fixes = Vec::new(alloc);
    'fixes: for fix in p.fixes() {
        append(&mut fixes, shift_fix(alloc, shifts, fix)?)?;
    }
    Ok(fixes)
}

/// The pattern without second signals that does at changed outcomes what this one does, and the change of outcomes (Danos,
/// Kashefi and Panangaden 2007): each measured qubit with its second signal, by which its outcome is changed.
pub fn shift<const H: usize>(
    alloc: Global,
    p: &Standard<H>,
) -> Result<(Standard<H>, Change), Memory>
    ensures form { IfOk result (λ shifted. IsShiftedForm p.now shifted.0) }
    ensures only { IfOk result (λ shifted. (q : Pattern) → IsShiftedForm p.now q → q ≡ shifted.0) }
    ensures valid { IfOk result (λ shifted. IsValidShiftedForm p.now shifted.0) }
    ensures shifted { IfOk result (λ shifted. IsInShiftedForm shifted.0) }
    ensures change { IfOk result (λ shifted. shifted.1 ≡ change_of p.now.commands) }
    ensures maps { IfOk result (λ shifted. (half : ℕ) → 0 < half →
        (o : Bits) (y : List Bool) (b : Bits) →
        branch_map (ring half) p.now o y b
        ≡ branch_map (ring half) shifted.0 (new_outcomes (change_of p.now.commands) o) y b) }
{
    // the proof needs that the pattern is its own standard form, and what that tells of its list
    let _names = p.names();
    settled_is_standard();
    let mut shifts = no_shifts(alloc)?;
    let mut change = Change::new(alloc);
    let measures = shift_measures(alloc, p, &mut shifts, &mut change)?;
    let fixes = shift_fixes(alloc, p, &shifts)?;
    let shifted = p.with_signals(measures, fixes)?;
    Ok((shifted, change))
}
