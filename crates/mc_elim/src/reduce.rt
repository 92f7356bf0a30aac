//! Additions of rows into others.

ghost use Rattle.std.specs.Prelude.{◌≡◌, ◌≢◌, ◌<◌, ◌≤◌, ◌+◌, ◌||◌, ℕ, true, false, nat_eq};
ghost use Rattle.std.specs.Prelude.{nat_lt};
ghost use Rattle.std.specs.Prelude.{length, slice_index, slice_set, cond};
ghost use Rattle.mc_bits.specs.Rows.{row_sum};
ghost use Rattle.mc_elim.specs.Tables.{row_at, entry, Cleared, CountsUpTo, IsReducedAt};
ghost use Rattle.mc_elim.specs.Tables.{IsReducedBy, IsClearedOf, LeavesNothing, BecomesVector};
ghost use Rattle.mc_elim.specs.Reduced.{AreApart, IsNumberedBy};

use crate::tables::vector_of;
use mc_bits::{Rows, Steps, add_into, two_rows};
use std::sync::ledger::Ledger;

/// Adds a row into another.
fn add_row<L: Ledger>(rows: &mut Rows, from: u16, to: u16, steps: &mut Steps<L>)
    requires within { (from < length rows.old) × (to < length rows.old) }
    requires apart { from ≢ to }
    requires alike { length (row_at rows.old from) ≡ length (row_at rows.old to) }
    ensures sum { rows.new ≡
        slice_set rows.old to (row_sum (row_at rows.old to) (row_at rows.old from)) }
    ensures counted { steps.new ≡ steps.old + 1 }
{
    let (first, second) = two_rows(rows.as_mut_slice(), from as usize, to as usize);
    add_into(first, second, steps);
}

/// Adds a row into another where that has the bit `k`; tells whether it has.
fn clear<L: Ledger>(rows: &mut Rows, from: u16, to: u16, k: u16, steps: &mut Steps<L>) -> bool
    requires within { (from < length rows.old) × (to < length rows.old) }
    requires apart { from ≢ to }
    requires alike { length (row_at rows.old from) ≡ length (row_at rows.old to) }
    requires bit { k < length (row_at rows.old to) }
    ensures bit { result ≡ entry rows.old to k }
    ensures cleared { Cleared rows.old rows.new from to k }
    ensures same { result ≡ false → rows.new ≡ rows.old }
    ensures counted { steps.new ≡ steps.old + cond result 1 0 }
{
    let has = rows.row(to).bit(k);
    if has {
        add_row(rows, from, to, steps);
    }
    has
}

/// Adds the vector with the first row `u`, if there is one, into the row `k`, which has this bit;
/// tells whether there is.
fn reduce_at<L: Ledger>(
    rows: &mut Rows,
    firsts: &[u16],
    numbers: &[u16],
    k: u16,
    u: u16,
    steps: &mut Steps<L>,
) -> bool
    requires within { (k < length rows.old) × (k ≤ length firsts.now) × (u < length numbers.now) }
    requires alike { (i : ℕ) → i < k →
        length (row_at rows.old i) ≡ length (row_at rows.old k) }
    requires numbered { IsNumberedBy k (slice_index firsts.now) (slice_index numbers.now) }
    requires bit { entry rows.old k u ≡ true }
    ensures reduced { IsReducedAt rows.old rows.new firsts.now k u result }
    ensures same { result ≡ false → rows.new ≡ rows.old }
    ensures counted { steps.new ≡ steps.old + cond result 1 0 }
{
    match vector_of(firsts, numbers, k, u) {
        Some(i) => {
            add_row(rows, i, k, steps);
            true
        }
        None => false,
    }
}

/// Reduces the row behind the first rows by these; tells whether something was added.
fn reduce<L: Ledger>(
    rows: &mut Rows,
    firsts: &[u16],
    numbers: &[u16],
    k: u16,
    n: u16,
    steps: &mut Steps<L>,
) -> bool
    requires within { (k < length rows.old) × (k ≤ length firsts.now) × (n ≤ length numbers.now) }
    requires width { n ≤ length (row_at rows.old k) }
    requires alike { (i : ℕ) → i < k →
        length (row_at rows.old i) ≡ length (row_at rows.old k) }
    requires numbered { IsNumberedBy k (slice_index firsts.now) (slice_index numbers.now) }
    requires apart { AreApart n k (slice_index firsts.now) }
    requires own { (a i : ℕ) → a < k → i < k →
        entry rows.old a (slice_index firsts.now i) ≡ nat_eq a i }
    ensures reduced { IsReducedBy rows.old rows.new firsts.now k k }
    ensures counted { CountsUpTo steps.old steps.new n result }
    ensures same { steps.new ≡ steps.old → rows.new ≡ rows.old }
{
    let mut added = false;
    let mut low = 0;
    'bits: while let Some(u) = rows.row(k).next_bit(low, n) {
        added |= reduce_at(rows, firsts, numbers, k, u, steps);
        low = u + 1;
    }
    added
}

/// Adds the row `k` into those before it that have the bit `t`; tells whether it did.
fn clear_others<L: Ledger>(rows: &mut Rows, k: u16, t: u16, steps: &mut Steps<L>) -> bool
    requires within { k < length rows.old }
    requires alike { (i : ℕ) → i < k →
        length (row_at rows.old i) ≡ length (row_at rows.old k) }
    requires bit { t < length (row_at rows.old k) }
    ensures cleared { IsClearedOf rows.old rows.new k t k }
    ensures counted { CountsUpTo steps.old steps.new k result }
    ensures same { steps.new ≡ steps.old → rows.new ≡ rows.old }
{
    let mut added = false;
    'vectors: for i in 0..k {
        added |= clear(rows, k, i, t, steps);
    }
    added
}

/// Reduces the row `k`, which is a column, and where something is left makes it a vector, of which
/// no other has the first row, and writes its number at that row. Tells whether something was left.
pub fn join<L: Ledger>(
    vectors: &mut Rows,
    firsts: &mut [u16],
    numbers: &mut [u16],
    k: u16,
    rows: u16,
    added: &mut bool,
    steps: &mut Steps<L>,
) -> bool
    requires within { (k < length vectors.old) × (rows ≡ length firsts.old) × (k ≤ rows) }
    requires numbers { rows ≡ length numbers.old }
    requires numbered { IsNumberedBy k (slice_index firsts.old) (slice_index numbers.old) }
    requires alike { (i : ℕ) → i ≤ k →
        length (row_at vectors.old i) ≡ length (row_at vectors.old k) }
    requires width { rows ≤ length (row_at vectors.old k) }
    requires apart { AreApart rows k (slice_index firsts.old) }
    requires own { (a i : ℕ) → a < k → i < k →
        entry vectors.old a (slice_index firsts.old i) ≡ nat_eq a i }
    ensures nothing { result ≡ false →
        LeavesNothing rows k firsts.old vectors.old vectors.new × (firsts.new ≡ firsts.old)
        × (numbers.new ≡ numbers.old) }
    ensures vector { result ≡ true →
        BecomesVector rows k firsts.old firsts.new vectors.old vectors.new × (k < rows)
        × (numbers.new ≡ slice_set numbers.old (slice_index firsts.new k) k) }
    ensures same { steps.new ≡ steps.old → vectors.new ≡ vectors.old }
    ensures shape { (length vectors.new ≡ length vectors.old)
        × ((i : ℕ) → length (row_at vectors.new i) ≡ length (row_at vectors.old i)) }
    ensures counted { (steps.old ≤ steps.new) × (steps.new ≤ steps.old + rows + k) }
    ensures added { added.new ≡ (added.old || nat_lt steps.old steps.new) }
{
    *added |= reduce(vectors, firsts, numbers, k, rows, steps);
    match vectors.row(k).next_bit(0, rows) {
        Some(t) => {
            *added |= clear_others(vectors, k, t, steps);
            firsts[k as usize] = t;
            numbers[t as usize] = k;
            true
        }
        None => false,
    }
}
