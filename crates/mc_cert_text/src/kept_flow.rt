//! The rows of a flow, as they are read.

ghost use Rattle.std.specs.Prelude.{◌≡◌, [], OnOk, IfErr};
ghost use Rattle.mc_cert_text.specs.Certs.{HasApartRows, plain_cert, flow};
ghost use Rattle.mc_cert_text.specs.Tables.{flow_shape, follows_in_flow, is_flow_row};
ghost use Rattle.mc_cert_text.specs.Kept.{IsBegun, flow_with};
ghost use Rattle.mc_cert_text.specs.Value.{flow_in};

use crate::cert::Cert;
use mc_graph::GFlow;
use mc_rows::{Row, Rows, Shape};
use mc_text::{Fault, Head, Stop};
use std::alloc::Global;

/// What is kept of the rows of a flow: whether there is one, and what they say.
#[derive(Drop)]
pub(crate) struct KeptFlow {
    alloc: Global,
    begun: bool,
    flow: GFlow,
}

impl KeptFlow {
    /// Before the first row.
    pub(crate) fn new(alloc: Global) -> KeptFlow
        ensures { IsBegun result.begun result.flow (flow_in []) [] }
    {
        KeptFlow {
            alloc,
            begun: false,
            flow: GFlow::new(alloc, 0),
        }
    }

    /// The flow that the rows say.
    pub(crate) fn cert(self) -> Cert
        ensures value { plain_cert result ≡ flow self.flow }
        ensures apart { HasApartRows (plain_cert result) }
    {
        // the proof needs that no two rows are of the same vertex
        let _rows = self.flow.len();
        Cert::Flow(self.flow)
    }
}

fn follows(last: Option<Head>, head: Option<Head>) -> bool
    ensures { result ≡ follows_in_flow last head }
{
    match (last, head) {
        (None, Some(Head::Depth)) => true,
        (Some(Head::Depth), Some(Head::G)) => true,
        (Some(Head::Depth), Some(Head::End)) => true,
        (Some(Head::G), Some(Head::G)) => true,
        (Some(Head::G), Some(Head::End)) => true,
        _ => false,
    }
}

fn shape(head: Option<Head>) -> Shape
    ensures { result ≡ flow_shape head }
{
    match head {
        Some(Head::Depth) => Shape::Numbered,
        Some(Head::G) => Shape::RankedSet,
        _ => Shape::Bare,
    }
}

fn is_vertex_row(head: Option<Head>) -> bool
    ensures { result ≡ is_flow_row head }
{
    matches!(head, Some(Head::G))
}

/// Adds a row behind the first.
fn push_row(flow: &mut GFlow, row: Row) -> Result<(), Stop>
    ensures ok { OnOk result (flow.new ≡ flow_with flow.old row) }
    ensures err { IfErr result (λ stop. stop ≡ Stop.Memory) }
{
    if !is_vertex_row(row.head) {
        return Ok(());
    }
    match flow.push(row.name, row.number as u32, row.set) {
        Ok(()) => Ok(()),
        // no vertex is met twice
        Err(_) => Err(Stop::Memory),
    }
}

impl Rows for KeptFlow {
    ghost use Rattle.mc_cert_text.specs.Kinds.{flow_kind};
    ghost use Rattle.mc_cert_text.specs.Kept.{IsBegun};
    ghost use Rattle.mc_cert_text.specs.Value.{flow_in};

    ghost kind = { λ _. flow_kind };

    ghost holds = { λ k rows. IsBegun k.begun k.flow (flow_in rows) rows };

    fn follows(&self, last: Option<Head>, head: Option<Head>) -> bool {
        follows(last, head)
    }

    fn shape(&self, head: Option<Head>) -> Shape {
        shape(head)
    }

    fn second(&self) -> bool {
        false
    }

    fn bar_head(&self, _head: Option<Head>) -> Result<(), Stop> {
        Ok(())
    }

    fn bar_named(&self, _head: Option<Head>, _number: u16, q: u16) -> Result<(), Stop> {
        if self.flow.has(q) {
            return Err(Stop::Fault(Fault::RowTwice));
        }
        Ok(())
    }

    fn bar_listed(&self, _q: u16) -> Result<(), Stop> {
        Ok(())
    }

    fn push(&mut self, row: Row) -> Result<(), Stop> {
        if self.begun {
            return push_row(&mut self.flow, row);
        }
        self.begun = true;
        self.flow = GFlow::new(self.alloc, row.number as u32);
        Ok(())
    }
}
