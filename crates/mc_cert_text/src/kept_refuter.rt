//! The rows of a refuter, as they are read.

ghost use Rattle.std.specs.Prelude.{◌≡◌, [], OnOk, IfErr};
ghost use Rattle.mc_cert_text.specs.Certs.{HasApartRows, plain_cert, noflow};
ghost use Rattle.mc_cert_text.specs.Tables.{refuter_shape, follows_in_refuter, is_set_row};
ghost use Rattle.mc_cert_text.specs.Kept.{refuter_with};

use crate::cert::Cert;
use mc_graph::Refuter;
use mc_rows::{Row, Rows, Shape};
use mc_text::{Fault, Head, Stop};
use std::alloc::Global;

/// What is kept of the rows of a refuter: what they say.
#[derive(Drop)]
pub(crate) struct KeptRefuter {
    refuter: Refuter,
}

impl KeptRefuter {
    /// Before the first row.
    pub(crate) fn new(alloc: Global) -> KeptRefuter
        ensures { result.refuter ≡ [] }
    {
        KeptRefuter {
            refuter: Refuter::new(alloc),
        }
    }

    /// The refuter that the rows say.
    pub(crate) fn cert(self) -> Cert
        ensures value { plain_cert result ≡ noflow self.refuter }
        ensures apart { HasApartRows (plain_cert result) }
    {
        // the proof needs that no two rows are of the same vertex
        let _rows = self.refuter.len();
        Cert::NoFlow(self.refuter)
    }
}

fn follows(last: Option<Head>, head: Option<Head>) -> bool
    ensures { result ≡ follows_in_refuter last head }
{
    match (last, head) {
        (None, Some(Head::Y)) => true,
        (None, Some(Head::End)) => true,
        (Some(Head::Y), Some(Head::Y)) => true,
        (Some(Head::Y), Some(Head::End)) => true,
        _ => false,
    }
}

fn shape(head: Option<Head>) -> Shape
    ensures { result ≡ refuter_shape head }
{
    match head {
        Some(Head::Y) => Shape::NamedSet,
        _ => Shape::Bare,
    }
}

fn is_vertex_row(head: Option<Head>) -> bool
    ensures { result ≡ is_set_row head }
{
    matches!(head, Some(Head::Y))
}

/// Adds a row.
fn push_row(refuter: &mut Refuter, row: Row) -> Result<(), Stop>
    ensures ok { OnOk result (refuter.new ≡ refuter_with refuter.old row) }
    ensures err { IfErr result (λ stop. stop ≡ Stop.Memory) }
{
    if !is_vertex_row(row.head) {
        return Ok(());
    }
    match refuter.push(row.name, row.set) {
        Ok(()) => Ok(()),
        // no vertex is met twice
        Err(_) => Err(Stop::Memory),
    }
}

impl Rows for KeptRefuter {
    ghost use Rattle.std.specs.Prelude.{◌≡◌};
    ghost use Rattle.mc_cert_text.specs.Kinds.{refuter_kind};
    ghost use Rattle.mc_cert_text.specs.Value.{refuter_in};

    ghost kind = { λ _. refuter_kind };

    ghost holds = { λ k rows. k.refuter ≡ refuter_in rows };

    fn follows(&self, last: Option<Head>, head: Option<Head>) -> bool {
        follows(last, head)
    }

    fn shape(&self, head: Option<Head>) -> Shape {
        shape(head)
    }

    fn second(&self) -> bool {
        false
    }

    fn bar_head(&self, _head: Option<Head>) -> Result<(), Stop> {
        Ok(())
    }

    fn bar_named(&self, _head: Option<Head>, _number: u16, q: u16) -> Result<(), Stop> {
        if self.refuter.has(q) {
            return Err(Stop::Fault(Fault::RowTwice));
        }
        Ok(())
    }

    fn bar_listed(&self, _q: u16) -> Result<(), Stop> {
        Ok(())
    }

    fn push(&mut self, row: Row) -> Result<(), Stop> {
        push_row(&mut self.refuter, row)
    }
}
