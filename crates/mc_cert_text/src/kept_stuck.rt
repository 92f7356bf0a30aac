//! The row of a stuck set, as it is read.

ghost use Rattle.std.specs.Prelude.{◌≡◌, []};
ghost use Rattle.mc_cert_text.specs.Certs.{plain_cert, nocausal};
ghost use Rattle.mc_cert_text.specs.Tables.{stuck_shape, follows_in_stuck};

use crate::cert::Cert;
use mc_graph::Stuck;
use mc_rows::{Row, Rows, Shape};
use mc_signal::QSet;
use mc_text::{Head, Stop};
use std::alloc::Global;

/// What is kept of the row of a stuck set: the set.
#[derive(Drop)]
pub(crate) struct KeptStuck {
    set: QSet,
}

impl KeptStuck {
    /// Before the row.
    pub(crate) fn new(alloc: Global) -> KeptStuck
        ensures { result.set ≡ [] }
    {
        KeptStuck {
            set: QSet::new(alloc),
        }
    }

    /// The stuck set that the row says.
    pub(crate) fn cert(self) -> Cert
        ensures { plain_cert result ≡ nocausal self.set }
    {
        Cert::NoCausal(Stuck::new(self.set))
    }
}

fn follows(last: Option<Head>, head: Option<Head>) -> bool
    ensures { result ≡ follows_in_stuck last head }
{
    match (last, head) {
        (None, Some(Head::B)) => true,
        (Some(Head::B), Some(Head::End)) => true,
        _ => false,
    }
}

fn shape(head: Option<Head>) -> Shape
    ensures { result ≡ stuck_shape head }
{
    match head {
        Some(Head::B) => Shape::Set,
        _ => Shape::Bare,
    }
}

impl Rows for KeptStuck {
    ghost use Rattle.std.specs.Prelude.{◌≡◌};
    ghost use Rattle.mc_cert_text.specs.Kinds.{stuck_kind};
    ghost use Rattle.mc_cert_text.specs.Value.{stuck_in};

    ghost kind = { λ _. stuck_kind };

    ghost holds = { λ k rows. k.set ≡ stuck_in rows };

    fn follows(&self, last: Option<Head>, head: Option<Head>) -> bool {
        follows(last, head)
    }

    fn shape(&self, head: Option<Head>) -> Shape {
        shape(head)
    }

    fn second(&self) -> bool {
        false
    }

    fn bar_head(&self, _head: Option<Head>) -> Result<(), Stop> {
        Ok(())
    }

    fn bar_named(&self, _head: Option<Head>, _number: u16, _q: u16) -> Result<(), Stop> {
        Ok(())
    }

    fn bar_listed(&self, _q: u16) -> Result<(), Stop> {
        Ok(())
    }

    fn push(&mut self, row: Row) -> Result<(), Stop> {
        self.set = row.set;
        Ok(())
    }
}
