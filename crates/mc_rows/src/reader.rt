//! The section of a kind of rows.

ghost use Rattle.std.specs.Prelude.{◌≡◌, []};
ghost use Rattle.mc_text.specs.Heads.{is_end};
ghost use Rattle.mc_rows.specs.Kept.{IsKept};

use crate::kind::Rows;
use crate::row::{Role, Row};
use crate::steps::{check_end, take_head, take_member, take_name, take_number};
use mc_names::Names;
use mc_text::{Fault, Head, Point, Section, Stop, fixed};
use std::alloc::Global;
use std::mem;

/// What is kept of the lines of a section of rows: the names that a section before has defined, what
/// the kind keeps of the rows so far, and the row of the current line.
#[derive(Drop)]
pub struct RowReader<'n, K> {
    pub kind: K,
    names: &'n Names,
    row: Row,
    alloc: Global,
}

impl<'n, K: Rows> RowReader<'n, K> {
    /// Before the first line, where `kind` has no rows.
    pub fn new(alloc: Global, names: &'n Names, kind: K) -> RowReader<'n, K>
        requires { K.holds kind [] }
        ensures begins { IsKept (K.kind result.kind) result.names.now (K.holds result.kind) result.row [] [] }
        ensures kind { result.kind ≡ kind }
        ensures names { result.names.now ≡ names.now }
    {
        RowReader {
            kind,
            names,
            row: Row::new(alloc),
            alloc,
        }
    }
}

/// Whether a line ends its section.
fn ends(head: Option<Head>) -> bool
    ensures { result ≡ is_end head }
{
    matches!(head, Some(Head::End))
}

impl<'n, K: Rows> Section for RowReader<'n, K> {
    ghost use Rattle.std.specs.Prelude.{◌∷◌, []};
    ghost use Rattle.mc_rows.specs.Judge.{row_rules};
    ghost use Rattle.mc_rows.specs.Kept.{IsKept};

    ghost rules = { λ k. row_rules (K.kind k.kind) k.names.now };

    ghost means = { λ k before here. IsKept (K.kind k.kind) k.names.now (K.holds k.kind) k.row before here };

    ghost given = { λ k. k.names.now ∷ [] };

    fn word(&mut self, point: Point, word: &[u8]) -> Result<(), Stop> {
        match self.kind.shape(point.head).role(point.count) {
            Role::Record => match take_head(&self.kind, &mut self.row, point.last, word) {
                Ok(()) => Ok(()),
                Err(stop) => Err(stop),
            },
            Role::Number => match take_number(&mut self.row, word) {
                Ok(()) => Ok(()),
                Err(stop) => Err(stop),
            },
            Role::Name => match take_name(&self.kind, self.names, &mut self.row, word) {
                Ok(()) => Ok(()),
                Err(stop) => Err(stop),
            },
            Role::Colon => match fixed(word, b":") {
                Ok(()) => Ok(()),
                Err(stop) => Err(stop),
            },
            Role::Member => match take_member(
                &self.kind,
                self.names,
                &mut self.row.set,
                &mut self.row.constant,
                word,
            ) {
                Ok(()) => Ok(()),
                Err(stop) => Err(stop),
            },
            Role::Surplus => Err(Stop::Fault(Fault::Surplus)),
        }
    }

    fn end_line(&mut self, point: Point) -> Result<(), Stop> {
        let role = self.kind.shape(point.head).role(point.count);
        if let Err(stop) = check_end(role) {
            return Err(stop);
        }
        let row = mem::replace(&mut self.row, Row::new(self.alloc));
        if ends(point.head) {
            return Ok(());
        }
        match self.kind.push(row) {
            Ok(()) => Ok(()),
            Err(stop) => Err(stop),
        }
    }
}
