//! Changes of outcomes.

ghost use Rattle.std.specs.Prelude.{◌≡◌, ◌<◌, [], ◌∷◌, ◌++◌, length, OnOk, OnErr, Some, slice_get};

use mc_model::Memory;
use mc_signal::Signal;
use std::alloc::Global;
use std::marker::Model;

/// A qubit whose outcome is changed by the value of a signal.
#[derive(Drop)]
struct Row {
    q: u16,
    s: Signal,
}

/// The outcomes that a pattern without second signals has in the place of another's (Danos, Kashefi and Panangaden 2007): a list
/// of qubits, each with the signal whose value is added to its outcome.
#[derive(Drop)]
pub struct Change {
    rows: Vec<Row>,
}

impl Model for Change {
    ghost use Rattle.std.specs.Prelude.{List, map};
    ghost use Rattle.mc_model.specs.Shift.{ChangeRow};
    ghost use Rattle.mc_pattern.specs.Changes.{plain_row};

    ghost Value = { List ChangeRow };

    ghost view = { λ c. map plain_row c.rows.items };
}

impl Change {
    /// A change without rows, which takes no memory.
    pub fn new(alloc: Global) -> Change
        ensures { result ≡ [] }
    {
        Change {
            rows: Vec::new(alloc),
        }
    }

    /// Adds a row, which goes last.
    pub fn push(&mut self, q: u16, s: Signal) -> Result<(), Memory>
        ensures ok { OnOk result (self.new ≡ self.old ++ record { qubit = q; signal = s } ∷ []) }
        ensures err { OnErr result (self.new ≡ self.old) }
    {
        match self.rows.push(Row { q, s }) {
            Ok(()) => Ok(()),
            Err(_) => Err(Memory),
        }
    }

    /// How many rows there are.
    pub fn len(&self) -> usize
        ensures { result ≡ length self.now }
    {
        self.rows.len()
    }

    /// The row at a place.
    pub fn row(&self, i: usize) -> (u16, &Signal)
        requires { i < length self.now }
        ensures { slice_get self.now i ≡ Some (record { qubit = result.0; signal = result.1.now }) }
    {
        let row = &self.rows[i];
        (row.q, &row.s)
    }
}
