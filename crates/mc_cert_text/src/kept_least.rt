//! The rows of a bound of depth, as they are read.

ghost use Rattle.std.specs.Prelude.{◌≡◌, [], OnOk, IfErr};
ghost use Rattle.mc_cert_text.specs.Certs.{HasApartRows, plain_cert, least};
ghost use Rattle.mc_cert_text.specs.Tables.{least_shape, follows_in_least};
ghost use Rattle.mc_cert_text.specs.Value.{least_in};
ghost use Rattle.mc_cert_text.specs.Kept.{IsBegun, bound_with};
ghost use Rattle.mc_cert_text.specs.Kinds.{has_bound_row};

use crate::cert::Cert;
use mc_cert::Bound;
use mc_graph::RowEnd;
use mc_rows::{Row, Rows, Shape};
use mc_text::{Fault, Head, Stop};
use std::alloc::Global;

/// What is kept of the rows of a bound: whether there is one, and what they say.
#[derive(Drop)]
pub(crate) struct KeptLeast {
    alloc: Global,
    begun: bool,
    bound: Bound,
}

impl KeptLeast {
    /// Before the first row.
    pub(crate) fn new(alloc: Global) -> KeptLeast
        ensures { IsBegun result.begun result.bound (least_in []) [] }
    {
        KeptLeast {
            alloc,
            begun: false,
            bound: Bound::new(alloc, 0),
        }
    }

    /// The bound that the rows say.
    pub(crate) fn cert(self) -> Cert
        ensures value { plain_cert result ≡ least self.bound }
        ensures apart { HasApartRows (plain_cert result) }
    {
        // the proof needs that no two rows are for the same layer and vertex
        let (_layers, _rows) = (self.bound.layers(), self.bound.len());
        Cert::Least(self.bound)
    }
}

fn follows(last: Option<Head>, head: Option<Head>) -> bool
    ensures { result ≡ follows_in_least last head }
{
    match (last, head) {
        (None, Some(Head::Depth)) => true,
        (Some(Head::Depth), Some(Head::L)) => true,
        (Some(Head::Depth), Some(Head::Y)) => true,
        (Some(Head::Depth), Some(Head::End)) => true,
        (Some(Head::L), Some(Head::L)) => true,
        (Some(Head::L), Some(Head::Y)) => true,
        (Some(Head::L), Some(Head::End)) => true,
        (Some(Head::Y), Some(Head::Y)) => true,
        (Some(Head::Y), Some(Head::End)) => true,
        _ => false,
    }
}

fn shape(head: Option<Head>) -> Shape
    ensures { result ≡ least_shape head }
{
    match head {
        Some(Head::Depth) => Shape::Numbered,
        Some(Head::L) => Shape::Ranked,
        Some(Head::Y) => Shape::RankedSet,
        _ => Shape::Bare,
    }
}

/// Whether a vertex has a layer, or a set for a layer.
fn has_row(bound: &Bound, head: Option<Head>, number: u16, q: u16) -> bool
    ensures { result ≡ has_bound_row bound.now head number q }
{
    match head {
        Some(Head::L) => bound.has_layer(q),
        Some(Head::Y) => bound.has(number as u32, q),
        _ => false,
    }
}

/// Adds a row behind the first.
fn add_row(bound: &mut Bound, row: Row) -> Result<(), RowEnd>
    ensures { OnOk result (bound.new ≡ bound_with bound.old row) }
{
    match row.head {
        Some(Head::L) => bound.layer(row.name, row.number as u32),
        Some(Head::Y) => bound.push(row.number as u32, row.name, row.set),
        _ => Ok(()),
    }
}

fn push_row(bound: &mut Bound, row: Row) -> Result<(), Stop>
    ensures ok { OnOk result (bound.new ≡ bound_with bound.old row) }
    ensures err { IfErr result (λ stop. stop ≡ Stop.Memory) }
{
    match add_row(bound, row) {
        Ok(()) => Ok(()),
        // no vertex is met twice
        Err(_) => Err(Stop::Memory),
    }
}

impl Rows for KeptLeast {
    ghost use Rattle.mc_cert_text.specs.Kinds.{least_kind};
    ghost use Rattle.mc_cert_text.specs.Value.{least_in};
    ghost use Rattle.mc_cert_text.specs.Kept.{IsBegun};

    ghost kind = { λ _. least_kind };

    ghost holds = { λ k rows. IsBegun k.begun k.bound (least_in rows) rows };

    fn follows(&self, last: Option<Head>, head: Option<Head>) -> bool {
        follows(last, head)
    }

    fn shape(&self, head: Option<Head>) -> Shape {
        shape(head)
    }

    fn second(&self) -> bool {
        false
    }

    fn bar_head(&self, _head: Option<Head>) -> Result<(), Stop> {
        Ok(())
    }

    fn bar_named(&self, head: Option<Head>, number: u16, q: u16) -> Result<(), Stop> {
        if has_row(&self.bound, head, number, q) {
            return Err(Stop::Fault(Fault::RowTwice));
        }
        Ok(())
    }

    fn bar_listed(&self, _q: u16) -> Result<(), Stop> {
        Ok(())
    }

    fn push(&mut self, row: Row) -> Result<(), Stop> {
        if self.begun {
            return push_row(&mut self.bound, row);
        }
        self.begun = true;
        self.bound = Bound::new(self.alloc, row.number as u32);
        Ok(())
    }
}
