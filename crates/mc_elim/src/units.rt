//! The least solution of each row of a matrix of bits, or what shows that there is none.

ghost use Rattle.std.specs.Prelude.{◌≡◌, ◌<◌, ◌≤◌, ℕ, List, [], IfOk, MatchOption};
ghost use Rattle.std.specs.Prelude.{length};
ghost use Rattle.mc_model.specs.Numbers.{is_member};
ghost use Rattle.mc_ring.specs.Matrices.{at};
ghost use Rattle.mc_bits.specs.Rows.{bit_of};
ghost use Rattle.mc_elim.specs.Basis.{count_of, columns_of};
ghost use Rattle.mc_elim.specs.Units.{columns_in, IsAnswer, HasAnswer, AreAnswers, AreUnits};

use crate::basis::Basis;
use mc_bits::{BitRow, Steps};
use mc_model::Memory;
use mc_ring::{Bit, Matrix};
use mc_signal::QSet;
use std::alloc::Global;
use std::marker::{Brand, Model};
use std::sync::ledger::{Blank, Ledger};

/// What is known of a row: its least solution, or its least refuter where it has none.
#[derive(Drop)]
pub enum Answer {
    Solution(QSet),
    Refuter(QSet),
}

/// What is known of each row of a matrix of bits, seen as the list of the answers.
#[derive(Drop)]
pub struct Units {
    answers: Vec<Answer>,
}

impl Model for Units {
    ghost use Rattle.std.specs.Prelude.{List};
    ghost use Rattle.mc_elim.specs.declared.units.Answer.{Answer};

    ghost Value = { List Answer };

    ghost view = { λ u. u.answers.items };
}

impl Units {
    /// The least solution of the row `u`; `None` exactly where it has none.
    pub fn solution(&self, u: u16) -> Option<&QSet>
        requires { u < length self.now }
        ensures { MatchOption result
            ((y : List ℕ) × HasAnswer self.now u (Answer.Refuter y))
            (λ set. HasAnswer self.now u (Answer.Solution set.now)) }
    {
        match &self.answers[u as usize] {
            Answer::Solution(set) => Some(set),
            Answer::Refuter(_) => None,
        }
    }

    /// The least refuter of the row `u`; `None` exactly where it has a solution.
    pub fn refuter(&self, u: u16) -> Option<&QSet>
        requires { u < length self.now }
        ensures { MatchOption result
            ((s : List ℕ) × HasAnswer self.now u (Answer.Solution s))
            (λ set. HasAnswer self.now u (Answer.Refuter set.now)) }
    {
        match &self.answers[u as usize] {
            Answer::Solution(_) => None,
            Answer::Refuter(set) => Some(set),
        }
    }
}

/// The places of a row of at most 256 bits at which the bit is 1.
pub fn members_of(alloc: Global, row: &BitRow) -> Result<QSet, Memory>
    requires { length row.now ≤ 256 }
    ensures { IfOk result (λ set. (k : ℕ) → is_member set k ≡ bit_of row.now k) }
{
    let mut set = QSet::new(alloc);
    let mut low = 0;
    'members: while let Some(k) = row.next_bit(low, row.len()) {
        set.toggle(k)?;
        low = k + 1;
    }
    Ok(set)
}

/// A column of a matrix of bits.
fn column_of(a: &Matrix<Bit>, rows: u16, j: usize) -> BitRow
    requires rows { (rows ≡ a.now.rows) × (rows ≤ 256) }
    requires column { j < a.now.columns }
    ensures bits { (r : ℕ) → r < rows → bit_of result r ≡ columns_in a.now j r }
    ensures length { length result ≡ rows }
{
    let mut column = BitRow::new(rows);
    'rows: for r in 0..rows {
        column.flip_if(r, a.at(r as usize, j).get());
    }
    column
}

/// Inserts each column of a matrix.
fn insert_columns<L: Ledger>(a: &Matrix<Bit>, basis: &mut Basis, steps: &mut Steps<L>)
    requires rows { (basis.old.rows ≡ a.now.rows) × (a.now.rows ≤ 256) }
    requires room { (basis.old.room ≡ a.now.columns) × (basis.old.columns ≡ []) }
    ensures rows { (basis.new.rows ≡ a.now.rows) × (basis.new.room ≡ a.now.columns) }
    ensures count { count_of basis.new ≡ a.now.columns }
    ensures columns { (j r : ℕ) → j < a.now.columns → r < a.now.rows →
        columns_of basis.new j r ≡ columns_in a.now j r }
{
    let rows = a.rows() as u16;
    'columns: for j in 0..a.columns() {
        basis.insert(&column_of(a, rows, j), steps);
    }
}

/// What a basis tells of the row `u`.
fn answer_of(alloc: Global, basis: &Basis, rows: u16, room: u16, u: u16) -> Result<Answer, Memory>
    requires sizes { (basis.now.rows ≡ rows) × (basis.now.room ≡ room) }
    requires small { (rows ≤ 256) × (room ≤ 256) }
    requires row { u < rows }
    ensures { IfOk result (IsAnswer basis.now u) }
{
    let mut columns = BitRow::new(room);
    if basis.single(u, &mut columns) {
        return Ok(Answer::Solution(members_of(alloc, &columns)?));
    }
    let mut y = BitRow::new(rows);
    basis.refuter(u, &mut y);
    Ok(Answer::Refuter(members_of(alloc, &y)?))
}

/// What a basis tells of each row.
fn answers_of(alloc: Global, basis: &Basis, rows: u16, room: u16) -> Result<Vec<Answer>, Memory>
    requires sizes { (basis.now.rows ≡ rows) × (basis.now.room ≡ room) }
    requires small { (rows ≤ 256) × (room ≤ 256) }
    ensures { IfOk result (λ answers. AreAnswers basis.now rows answers.items) }
{
    let mut answers = Vec::new(alloc);
    'rows: for u in 0..rows {
        let answer = answer_of(alloc, basis, rows, room, u)?;
        match answers.push(answer) {
            Ok(()) => {}
            Err(_) => return Err(Memory),
        }
    }
    Ok(answers)
}

/// The answers of a matrix, with a blank for a count that nobody reads.
fn solve_counted<L: Ledger>(alloc: Global, a: &Matrix<Bit>, blank: Blank) -> Result<Units, Memory>
    requires small { (a.now.rows ≤ 256) × (a.now.columns ≤ 256) }
    requires name { blank.name ≡ L.name }
    requires parts { (blank.parts ≡ L.parts) × (L.parts ≡ 1) }
    ensures { IfOk result (AreUnits a.now) }
{
    let mut steps = Steps::<L>::new(blank);
    let (rows, columns) = (a.rows() as u16, a.columns() as u16);
    let mut basis = Basis::new(alloc, rows, columns)?;
    insert_columns(a, &mut basis, &mut steps);
    let answers = answers_of(alloc, &basis, rows, columns)?;
    Ok(Units { answers })
}

/// For each row of a matrix of bits the least set of columns whose sum is 1 in this row and 0 in
/// every other, or, where there is none, the least set of rows that holds it and meets each column
/// in an even number. Sets are compared by the greatest number in which they differ.
pub fn solve_units(alloc: Global, a: &Matrix<Bit>) -> Result<Units, Memory>
    requires { (a.now.rows ≤ 256) × (a.now.columns ≤ 256) }
    ensures { IfOk result (AreUnits a.now) }
{
    solve_counted::<Brand>(alloc, a, Blank::new(1))
}
