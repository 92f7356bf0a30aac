//! A basis of columns of bits, which are inserted one by one.

ghost use Rattle.std.specs.Prelude.{◌≡◌, ◌<◌, ◌≤◌, ◌+◌, ◌*◌, ◌||◌, ◌++◌, ◌∷◌, []};
ghost use Rattle.std.specs.Prelude.{◌↔◌, ℕ, true};
ghost use Rattle.std.specs.Prelude.{false, nat_lt, length, IfOk};
ghost use Rattle.mc_bits.specs.Rows.{bit_of};
ghost use Rattle.mc_elim.specs.Basis.{count_of, IsSumOfInserted, IsLeastSolution, HasSolution};
ghost use Rattle.mc_elim.specs.Basis.{HasNoSolution, IsLeastRefuter, HasNoRefuter, HasOneColumn};

use crate::reduce::join;
use crate::tables::{marked, vector_of, write_null_set};
use mc_bits::{BitRow, Rows, Steps};
use mc_model::Memory;
use std::alloc::Global;
use std::marker::Model;
use std::sync::ledger::Ledger;

/// The inserted columns, and a reduced basis of them.
#[derive(Drop)]
pub struct Basis {
    vectors: Rows,
    columns: Rows,
    firsts: Vec<u16>,
    /// The number of each vector at its first row, and any number at other rows.
    numbers: Vec<u16>,
    rows: u16,
    room: u16,
    inserted: u16,
    len: u16,
    has_added: bool,
}

impl Model for Basis {
    ghost use Rattle.std.specs.Prelude.{take};
    ghost use Rattle.mc_elim.specs.Basis.{Inserted, HoldsBasis};

    ghost Value = { Inserted };

    ghost view = { λ b. record {
      rows = b.rows;
      room = b.room;
      columns = take b.inserted b.columns;
      has_added = b.has_added;
    } };

    ghost invariant = { λ b. HoldsBasis b.rows b.room b.inserted b.len b.vectors b.columns
        b.firsts.items b.numbers.items b.has_added };
}

fn zeros(alloc: Global, n: u16) -> Result<Vec<u16>, Memory>
    ensures { IfOk result (λ zeros. length zeros.items ≡ n) }
{
    match vec![in alloc; 0; n as usize] {
        Ok(zeros) => Ok(zeros),
        Err(_) => Err(Memory),
    }
}

impl Basis {
    /// A basis of no columns, with room for so many, which takes all its memory here.
    pub fn new(alloc: Global, rows: u16, columns: u16) -> Result<Basis, Memory>
        requires { (rows ≤ 256) × (columns ≤ 256) }
        ensures { IfOk result (λ basis. (basis.rows ≡ rows) × (basis.room ≡ columns)
            × (basis.columns ≡ []) × (basis.has_added ≡ false)) }
    {
        let firsts = zeros(alloc, rows)?;
        let numbers = zeros(alloc, rows)?;
        let vectors = Rows::new(alloc, rows + 1, rows + columns)?;
        let inserted = Rows::new(alloc, columns, rows)?;
        Ok(Basis {
            vectors,
            columns: inserted,
            firsts,
            numbers,
            rows,
            room: columns,
            inserted: 0,
            len: 0,
            has_added: false,
        })
    }

    /// How many columns were inserted.
    pub fn inserted(&self) -> u16
        ensures { result ≡ count_of self.now }
    {
        self.inserted
    }

    /// Inserts a column; tells whether it is no sum of earlier ones.
    pub fn insert<L: Ledger>(&mut self, column: &BitRow, steps: &mut Steps<L>) -> bool
        requires width { length column.now ≡ self.old.rows }
        requires room { count_of self.old < self.old.room }
        ensures columns { self.new.columns ≡ self.old.columns ++ column.now ∷ [] }
        ensures sizes { (self.new.rows ≡ self.old.rows) × (self.new.room ≡ self.old.room) }
        ensures sum { result ≡ false ↔ IsSumOfInserted self.old column.now }
        ensures counted { (steps.old ≤ steps.new) × (steps.new ≤ steps.old + 2 * self.old.rows) }
        ensures some { result ≡ false → (r : ℕ) → bit_of column.now r ≡ true →
            steps.old < steps.new }
        ensures added { self.new.has_added ≡ (self.old.has_added || nat_lt steps.old steps.new) }
    {
        *self.columns.row_mut(self.inserted) = column.copy();
        *self.vectors.row_mut(self.len) = marked(
            column,
            self.rows + self.room,
            self.rows + self.inserted,
        );
        let joined = join(
            &mut self.vectors,
            &mut self.firsts,
            &mut self.numbers,
            self.len,
            self.rows,
            &mut self.has_added,
            steps,
        );
        self.inserted += 1;
        self.len += joined as u16;
        joined
    }

    /// Writes the least set of inserted columns whose sum is 1 in the row `u` and 0 in every other;
    /// false exactly where there is none.
    pub fn single(&self, u: u16, out: &mut BitRow) -> bool
        requires row { u < self.now.rows }
        requires width { length out.old ≡ self.now.room }
        ensures yes { result ≡ true → IsLeastSolution self.now u (bit_of out.new) }
        ensures others { result ≡ true → (j : ℕ) → count_of self.now ≤ j →
            bit_of out.new j ≡ false }
        ensures alone { result ≡ true → self.now.has_added ≡ false →
            HasOneColumn self.now (bit_of out.new) }
        ensures no { result ≡ false → HasNoSolution self.now u × (out.new ≡ out.old) }
        ensures length { length out.new ≡ length out.old }
    {
        match vector_of(&self.firsts, &self.numbers, self.len, u) {
            Some(i) => match self.vectors.row(i).next_bit(u + 1, self.rows) {
                Some(_) => false,
                None => {
                    *out = self.vectors.row(i).tail(self.rows);
                    true
                }
            },
            None => false,
        }
    }

    /// Writes the least set of rows that holds `u` and meets each inserted column in an even
    /// number; false exactly where there is none.
    pub fn refuter(&self, u: u16, out: &mut BitRow) -> bool
        requires row { u < self.now.rows }
        requires width { length out.old ≡ self.now.rows }
        ensures yes { result ≡ true → IsLeastRefuter self.now u (bit_of out.new) }
        ensures no { result ≡ false → HasNoRefuter self.now u × (out.new ≡ out.old) }
        // one of the two questions is answered
        ensures solved { result ≡ false → HasSolution self.now u }
        ensures length { length out.new ≡ length out.old }
    {
        match vector_of(&self.firsts, &self.numbers, self.len, u) {
            Some(i) => match self.vectors.row(i).next_bit(u + 1, self.rows) {
                Some(f) => {
                    write_null_set(&self.vectors, &self.firsts, self.len, f, out);
                    true
                }
                None => false,
            },
            None => {
                write_null_set(&self.vectors, &self.firsts, self.len, u, out);
                true
            }
        }
    }
}
