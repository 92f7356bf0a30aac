//! Vectors over a ring, step by step.

ghost use Rattle.std.specs.Prelude.{◌≡◌, ℕ, ◌+◌, ◌<◌, ◌≤◌, ◌^◌, true, IfOk, length, map};
ghost use Rattle.mc_run.specs.Exact.{exact};
ghost use Rattle.mc_run.specs.Sources.{entry, taken, source, ArePairs, IsLongFor, CanTake};
ghost use Rattle.mc_run.specs.Sources.{IsStepped, IsSmall, IsSmallWeight};

use crate::place::{digit, with_more};
use crate::source::Source;
use crate::step::Step;
use mc_model::Memory;
use mc_ring::{PhaseRing, Ring};
use std::alloc::Global;

/// `x + w^steps·y`, of numbers that are low enough.
fn combine<R: PhaseRing>(x: &R, y: &R, steps: u32) -> R
    requires { R.height_of (R.seen x.now) + R.height_of (R.seen y.now) ≤ 2 ^ 60 }
    ensures { R.seen result ≡ R.sum_of (R.seen x.now) (R.turned_by steps (R.seen y.now)) }
{
    x.known();
    y.known();
    let turned = y.turn(steps);
    match x.add(&turned) {
        Some(sum) => sum,
        None => unreachable!(),
    }
}

/// What a source tells of.
fn take<R: PhaseRing>(entries: &[R], source: Source) -> R
    requires permitted { R.IsPermitted }
    requires there { CanTake R.height_of (map R.seen entries.now) source }
    ensures { R.seen result ≡ taken
        (exact R.nought R.unit R.sum_of R.negative_of R.turned_by R.HALF R.height_of) (map R.seen entries.now) source }
{
    match source {
        Source::Nought => R::zero(),
        Source::Turned { at, steps } => entries[at].turn(steps),
        Source::Sum {
            first,
            second,
            steps,
        } => combine(&entries[first], &entries[second], steps),
    }
}

/// The vector behind a step, of so many entries.
fn stepped<R: PhaseRing>(
    alloc: Global,
    entries: &[R],
    step: Step,
    count: usize,
) -> Result<Vec<R>, Memory>
    requires permitted { R.IsPermitted }
    requires half { R.HALF ≤ 2 ^ 16 }
    requires small { IsSmall step }
    requires few { count ≤ 2 ^ 32 }
    requires there { (i : ℕ) → i < count → CanTake R.height_of (map R.seen entries.now) (source R.HALF step i) }
    ensures length { IfOk result (λ next. length next.items ≡ count) }
    ensures stepped { IfOk result (λ next. IsStepped
        (exact R.nought R.unit R.sum_of R.negative_of R.turned_by R.HALF R.height_of) R.IsElement step
        (map R.seen entries.now) (map R.seen next.items)) }
{
    let mut next = Vec::new(alloc);
    'entries: for i in 0..count {
        let entry = take(entries, step.source(R::HALF as u32, i));
        entry.known();
        let Ok(()) = next.push(entry) else {
            return Err(Memory);
        };
    }
    Ok(next)
}

/// Lets each entry tell that it is an element; does nothing.
fn known_all<R: PhaseRing>(entries: &[R])
    ensures { (i : ℕ) → i < length entries.now → R.IsElement (entry (map R.seen entries.now) i) }
{
    'entries: for i in 0..entries.len() {
        entries[i].known();
    }
}

/// Negates the entries at which two digits are 1.
pub(crate) fn signed<R: PhaseRing>(entries: &mut [R], a: usize, b: usize)
    requires permitted { R.IsPermitted }
    requires small_a { IsSmallWeight a }
    requires small_b { IsSmallWeight b }
    ensures long { length entries.new ≡ length entries.old }
    ensures stepped { IsStepped
        (exact R.nought R.unit R.sum_of R.negative_of R.turned_by R.HALF R.height_of) R.IsElement (Step.Ent a b)
        (map R.seen entries.old) (map R.seen entries.new) }
{
    'entries: for i in 0..entries.len() {
        let x = entries[i];
        x.known();
        if digit(a, i) & digit(b, i) {
            entries[i] = x.negative();
        }
    }
    known_all(entries);
}

/// Negates the entries at which a digit is 1, where the sign acts.
pub(crate) fn signed_where<R: PhaseRing>(entries: &mut [R], weight: usize, acts: bool)
    requires permitted { R.IsPermitted }
    requires small { IsSmallWeight weight }
    ensures long { length entries.new ≡ length entries.old }
    ensures stepped { IsStepped
        (exact R.nought R.unit R.sum_of R.negative_of R.turned_by R.HALF R.height_of) R.IsElement (Step.Z weight acts)
        (map R.seen entries.old) (map R.seen entries.new) }
{
    if acts {
        signed(entries, weight, weight);
    } else {
        known_all(entries);
    }
}

/// Swaps the entries of each pair that a digit tells apart.
fn swapped<R: PhaseRing>(entries: &mut [R], weight: usize)
    requires permitted { R.IsPermitted }
    requires small { IsSmallWeight weight }
    requires few { length entries.old ≤ 2 ^ 32 }
    requires pairs { ArePairs (length entries.old) weight }
    ensures long { length entries.new ≡ length entries.old }
    ensures stepped { IsStepped
        (exact R.nought R.unit R.sum_of R.negative_of R.turned_by R.HALF R.height_of) R.IsElement (Step.X weight true)
        (map R.seen entries.old) (map R.seen entries.new) }
{
    'pairs: for j in 0..entries.len() / 2 {
        let first = with_more(weight, false, j);
        let second = with_more(weight, true, j);
        let (x, y) = (entries[first], entries[second]);
        x.known();
        y.known();
        entries[first] = y;
        entries[second] = x;
    }
    known_all(entries);
}

/// Swaps the entries of each pair that a digit tells apart, where the flip acts.
pub(crate) fn swapped_where<R: PhaseRing>(entries: &mut [R], weight: usize, acts: bool)
    requires permitted { R.IsPermitted }
    requires small { IsSmallWeight weight }
    requires few { length entries.old ≤ 2 ^ 32 }
    requires pairs { ArePairs (length entries.old) weight }
    ensures long { length entries.new ≡ length entries.old }
    ensures stepped { IsStepped
        (exact R.nought R.unit R.sum_of R.negative_of R.turned_by R.HALF R.height_of) R.IsElement (Step.X weight acts)
        (map R.seen entries.old) (map R.seen entries.new) }
{
    if acts {
        swapped(entries, weight);
    } else {
        known_all(entries);
    }
}

/// Makes of each pair that a digit tells apart its sum and its difference, the second entry turned
/// before.
pub(crate) fn crossed<R: PhaseRing>(entries: &mut [R], weight: usize, steps: u32)
    requires permitted { R.IsPermitted }
    requires small { IsSmallWeight weight }
    requires few { length entries.old ≤ 2 ^ 32 }
    requires pairs { ArePairs (length entries.old) weight }
    requires there { (i : ℕ) → i < length entries.old →
        CanTake R.height_of (map R.seen entries.old) (source R.HALF (Step.J weight steps) i) }
    ensures long { length entries.new ≡ length entries.old }
    ensures stepped { IsStepped
        (exact R.nought R.unit R.sum_of R.negative_of R.turned_by R.HALF R.height_of) R.IsElement (Step.J weight steps)
        (map R.seen entries.old) (map R.seen entries.new) }
{
    'pairs: for j in 0..entries.len() / 2 {
        let first = with_more(weight, false, j);
        let second = with_more(weight, true, j);
        let (x, y) = (entries[first], entries[second]);
        y.known();
        let (sum, difference) = x.cross(&y, steps);
        entries[first] = sum;
        entries[second] = difference;
    }
    known_all(entries);
}

/// Makes of each pair that a digit tells apart its sum, the second entry turned before.
pub(crate) fn folded<R: PhaseRing>(entries: &mut Vec<R>, weight: usize, steps: u32)
    requires permitted { R.IsPermitted }
    requires small { IsSmallWeight weight }
    requires few { length entries.old.items ≤ 2 ^ 32 }
    requires pairs { ArePairs (length entries.old.items) weight }
    requires there { (i : ℕ) → i + i < length entries.old.items →
        CanTake R.height_of (map R.seen entries.old.items) (source R.HALF (Step.Meas weight steps) i) }
    ensures long { length entries.new.items + length entries.new.items ≡ length entries.old.items }
    ensures stepped { IsStepped
        (exact R.nought R.unit R.sum_of R.negative_of R.turned_by R.HALF R.height_of) R.IsElement (Step.Meas weight steps)
        (map R.seen entries.old.items) (map R.seen entries.new.items) }
{
    let count = entries.len() / 2;
    'pairs: for j in 0..count {
        let first = with_more(weight, false, j);
        let second = with_more(weight, true, j);
        let (x, y) = (entries[first], entries[second]);
        let (sum, _) = x.cross(&y, steps);
        entries[j] = sum;
    }
    entries.truncate(count);
    known_all(entries);
}

/// The vector behind a step, of so many entries.
pub(crate) fn behind<R: PhaseRing>(
    alloc: Global,
    mut entries: Vec<R>,
    step: Step,
    count: usize,
) -> Result<Vec<R>, Memory>
    requires permitted { R.IsPermitted }
    requires half { R.HALF ≤ 2 ^ 16 }
    requires small { IsSmall step }
    requires few { count ≤ 2 ^ 32 }
    requires few_before { length entries.items ≤ 2 ^ 32 }
    requires long { IsLongFor step (length entries.items) count }
    requires there { (i : ℕ) → i < count →
        CanTake R.height_of (map R.seen entries.items) (source R.HALF step i) }
    ensures length { IfOk result (λ next. length next.items ≡ count) }
    ensures stepped { IfOk result (λ next. IsStepped
        (exact R.nought R.unit R.sum_of R.negative_of R.turned_by R.HALF R.height_of) R.IsElement step
        (map R.seen entries.items) (map R.seen next.items)) }
{
    match step {
        Step::Input(_) => stepped(alloc, &entries, step, count),
        Step::Prep => stepped(alloc, &entries, step, count),
        Step::Ent { a, b } => {
            signed(&mut entries, a, b);
            Ok(entries)
        }
        Step::X { weight, acts } => {
            swapped_where(&mut entries, weight, acts);
            Ok(entries)
        }
        Step::Z { weight, acts } => {
            signed_where(&mut entries, weight, acts);
            Ok(entries)
        }
        Step::J { weight, steps } => {
            crossed(&mut entries, weight, steps);
            Ok(entries)
        }
        Step::Meas { weight, steps } => {
            folded(&mut entries, weight, steps);
            Ok(entries)
        }
    }
}
