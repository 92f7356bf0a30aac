//! Rows that are lent.

ghost use Rattle.std.specs.Prelude.{◌≡◌, ◌≢◌, ◌<◌, ◌≤◌, IfOk, [], length, false, slice_index_or};
ghost use Rattle.std.specs.Prelude.{slice_set, replicate};
ghost use Rattle.std.specs.Borrow.{sem, Lends, LendsBoth, Array};
ghost use Rattle.mc_bits.specs.Rows.{refilled};
ghost use Rattle.mc_bits.specs.contracts.row.BitRow.{the_row as row};

use crate::row::BitRow;
use mc_model::Memory;
use std::alloc::Global;
use std::marker::Model;

/// Rows, all in one block.
#[derive(Drop)]
pub struct Rows {
    rows: Vec<BitRow>,
}

impl Model for Rows {
    ghost use Rattle.std.specs.Prelude.{List, Bool};

    ghost Value = { List (List Bool) };

    ghost view = { λ r. r.rows.items };
}

impl Rows {
    ghost use Rattle.mc_bits.specs.contracts.rows.Rows.{the_row};

    /// Rows whose bits are all 0.
    pub fn new(alloc: Global, rows: u16, bits: u16) -> Result<Rows, Memory>
        requires { bits ≤ 1024 }
        ensures { IfOk result (λ r. r ≡ replicate rows (replicate bits false)) }
    {
        let mut made = match Vec::with_capacity(alloc, rows as usize) {
            Ok(made) => made,
            Err(_) => return Err(Memory),
        };
        'rows: for count in 0..rows {
            match made.push(BitRow::new(bits)) {
                Ok(()) => {}
                Err(_) => return Err(Memory),
            }
        }
        Ok(Rows { rows: made })
    }

    /// The row `i`.
    pub fn row(&self, i: u16) -> &BitRow
        requires { i < length self.now }
        ensures { result.now ≡ slice_index_or self.now i [] }
    {
        &self.rows[i as usize]
    }

    /// The row `i`, for writing.
    pub fn row_mut(&mut self, i: u16) -> &mut BitRow
        requires { i < length self.old }
        ensures* writes_back { sem 𝓛 (Lends the_row row self.entry result (slice_set self.old i)) }
        ensures row { result.now ≡ slice_index_or self.old i [] }
    {
        &mut self.rows[i as usize]
    }

    /// All rows.
    pub fn as_slice(&self) -> &[BitRow]
        ensures { result.now ≡ self.now }
    {
        self.rows.as_slice()
    }

    /// All rows, for writing.
    pub fn as_mut_slice(&mut self) -> &mut [BitRow]
        ensures* writes_back { sem 𝓛 (Lends the_row (Array row 0) self.entry result
            (refilled self.old)) }
        ensures rows { result.now ≡ self.old }
    {
        self.rows.as_mut_slice()
    }
}

/// Two rows, for writing at once. All others stay as they are.
pub fn two_rows(rows: &mut [BitRow], i: usize, j: usize) -> (&mut BitRow, &mut BitRow)
    requires within { (i < length rows.old) × (j < length rows.old) }
    requires apart { i ≢ j }
    ensures* writes_back { sem 𝓛 (LendsBoth (Array row 0) row row rows.entry result
        (λ first second. slice_set (slice_set rows.old i first) j second)) }
    ensures first { result.0.now ≡ slice_index_or rows.old i [] }
    ensures second { result.1.now ≡ slice_index_or rows.old j [] }
{
    if i < j {
        let (low, high) = rows.split_at_mut(j);
        (&mut low[i], &mut high[0])
    } else {
        let (low, high) = rows.split_at_mut(i);
        (&mut high[0], &mut low[j])
    }
}
