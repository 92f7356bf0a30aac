//! Matrices over a ring.

ghost use Rattle.std.specs.Prelude.{◌≡◌, ◌<◌, ◌≤◌, ◌*◌, ℕ, ◌⊎◌, ◌≢◌, IfOk, Err, MatchOption};
ghost use Rattle.std.specs.Prelude.{map};
ghost use Rattle.std.specs.Prelude.{replicate};
ghost use Rattle.mc_ring.specs.Matrices.{at, products, sum_below, IsProduct, LeavesAt, StaysBelow};
ghost use Rattle.mc_ring.specs.Matrices.{LeavesRange, StaysInRange};

use crate::traits::Ring;
use mc_model::Memory;
use std::alloc::Global;
use std::marker::Model;
use thiserror::Error;

/// A matrix of at most 1,048,576 entries.
#[derive(Drop)]
pub struct Matrix<R: Ring> {
    rows: usize,
    columns: usize,
    entries: Vec<R>,
}

impl<R: Ring> Model for Matrix<R> {
    ghost use Rattle.std.specs.Prelude.{◌≡◌, ◌≤◌, ◌*◌, length, map};
    ghost use Rattle.mc_ring.specs.Matrices.{Entries};

    ghost Value = { Entries };

    ghost view = { λ m. record {
      rows = m.rows;
      columns = m.columns;
      entries = map R.seen m.entries.items;
    } };

    ghost invariant = { λ m. R.IsPermitted × (length m.entries.items ≡ m.rows * m.columns)
        × (m.rows * m.columns ≤ 1048576) };
}

/// Why there is no product.
#[derive(Debug, Drop, PartialEq, Eq, Error)]
pub enum MatEnd {
    /// A product of two entries, or a partial sum of such products, is out of the ring's range.
    #[error("out of the ring's range")]
    Range,
    /// No memory.
    #[error("out of memory")]
    Memory,
}

/// As many zeros.
fn zero_entries<R: Ring>(alloc: Global, count: usize) -> Result<Vec<R>, Memory>
    requires { R.IsPermitted }
    ensures { IfOk result (λ entries. map R.seen entries.items ≡ replicate count R.nought) }
{
    let mut entries = Vec::new(alloc);
    'entries: for k in 0..count {
        match entries.push(R::zero()) {
            Ok(()) => {}
            Err(_) => return Err(Memory),
        }
    }
    Ok(entries)
}

/// The sum with a product.
fn add_product<R: Ring>(sum: &R, left: &R, right: &R) -> Option<R>
    ensures { MatchOption result
        ((¬ R.InRange (R.product_of (R.seen left.now) (R.seen right.now)))
        ⊎ (¬ R.InRange (R.sum_of (R.seen sum.now)
        (R.product_of (R.seen left.now) (R.seen right.now)))))
        (λ next. (R.seen next ≡ R.sum_of (R.seen sum.now)
        (R.product_of (R.seen left.now) (R.seen right.now)))
        × R.InRange (R.product_of (R.seen left.now) (R.seen right.now))
        × R.InRange (R.seen next)) }
{
    match left.mul(right) {
        Some(product) => sum.add(&product),
        None => None,
    }
}

impl<R: Ring> Matrix<R> {
    /// The matrix of zeros.
    pub fn zeros(alloc: Global, rows: usize, columns: usize) -> Result<Matrix<R>, Memory>
        requires permitted { R.IsPermitted }
        requires size { rows * columns ≤ 1048576 }
        ensures size { IfOk result (λ m. (m.rows ≡ rows) × (m.columns ≡ columns)) }
        ensures zeros { IfOk result (λ m. (r c : ℕ) → r < rows → c < columns →
            at m r c ≡ R.nought) }
    {
        let entries = zero_entries(alloc, rows * columns)?;
        Ok(Matrix {
            rows,
            columns,
            entries,
        })
    }

    /// The number of rows.
    pub fn rows(&self) -> usize
        ensures rows { result ≡ self.now.rows }
        ensures permitted { R.IsPermitted }
        ensures size { self.now.rows * self.now.columns ≤ 1048576 }
    {
        self.rows
    }

    /// The number of columns.
    pub fn columns(&self) -> usize
        ensures columns { result ≡ self.now.columns }
        ensures permitted { R.IsPermitted }
        ensures size { self.now.rows * self.now.columns ≤ 1048576 }
    {
        self.columns
    }

    /// The entry in the row `r` and the column `c`.
    pub fn at(&self, r: usize, c: usize) -> R
        requires { (r < self.now.rows) × (c < self.now.columns) }
        ensures { R.seen result ≡ at self.now r c }
    {
        self.entries[r * self.columns + c]
    }

    /// Puts an entry in the row `r` and the column `c`.
    pub fn set(&mut self, r: usize, c: usize, v: R)
        requires { (r < self.old.rows) × (c < self.old.columns) }
        ensures size { (self.new.rows ≡ self.old.rows) × (self.new.columns ≡ self.old.columns) }
        ensures entry { at self.new r c ≡ R.seen v }
        ensures others { (i j : ℕ) → i < self.old.rows → j < self.old.columns →
            (i ≢ r) ⊎ (j ≢ c) → at self.new i j ≡ at self.old i j }
    {
        let place = r * self.columns + c;
        self.entries[place] = v;
    }

    /// The product of the row `r` with the column `c` of another matrix, term by term.
    fn entry_of(&self, other: &Matrix<R>, r: usize, c: usize) -> Option<R>
        requires inner { self.now.columns ≡ other.now.rows }
        requires place { (r < self.now.rows) × (c < other.now.columns) }
        ensures { MatchOption result
            ((k : ℕ) × (k < self.now.columns) × LeavesAt R.InRange R.nought R.sum_of
            (products R.product_of self.now other.now r c) k)
            (λ sum. (R.seen sum ≡ sum_below R.nought R.sum_of
            (products R.product_of self.now other.now r c) self.now.columns)
            × StaysBelow R.InRange R.nought R.sum_of
            (products R.product_of self.now other.now r c) self.now.columns) }
    {
        let inner = self.columns();
        let mut sum = R::zero();
        'terms: for k in 0..inner {
            sum = add_product(&sum, &self.at(r, k), &other.at(k, c))?;
        }
        Some(sum)
    }

    /// The product with another matrix: each entry starts at zero and adds the products by rising
    /// inner index.
    ///
    /// # Errors
    ///
    /// `Range` exactly where a product or a partial sum so computed is out of the ring's range.
    /// `Memory`, which stands first, is want of memory.
    pub fn times(&self, alloc: Global, other: &Matrix<R>) -> Result<Matrix<R>, MatEnd>
        requires inner { self.now.columns ≡ other.now.rows }
        requires size { self.now.rows * other.now.columns ≤ 1048576 }
        ensures product { IfOk result
            (IsProduct R.nought R.sum_of R.product_of self.now other.now) }
        ensures stays { IfOk result (λ m.
            StaysInRange R.InRange R.nought R.sum_of R.product_of self.now other.now) }
        ensures range { result ≡ Err MatEnd.Range →
            LeavesRange R.InRange R.nought R.sum_of R.product_of self.now other.now }
    {
        let (rows, columns) = (self.rows(), other.columns());
        let mut product = match Matrix::zeros(alloc, rows, columns) {
            Ok(product) => product,
            Err(_) => return Err(MatEnd::Memory),
        };
        let count = rows * columns;
        'entries: for i in 0..count {
            match self.entry_of(other, i / columns, i % columns) {
                Some(entry) => product.set(i / columns, i % columns, entry),
                None => return Err(MatEnd::Range),
            }
        }
        Ok(product)
    }
}
