//! The kinds of document, how a document is looked at, and its canonical text.

ghost use Rattle.std.specs.Prelude.{◌≡◌, IfOk, IsTrue, None, Some, is_some};
ghost use Rattle.mc_cert_text.specs.Certs.{plain_cert};
ghost use Rattle.mc_document.specs.Documents.{cert_in, circuit_in, gates_in, graph_in, pattern_in};
ghost use Rattle.mc_document.specs.Documents.{IsDocument, document_text, plain_document, traced_in, two_in};

use crate::print::{print_with_any, print_with_any_cert, print_with_trace};
use mc_cert_text::Cert;
use mc_circuit::{Circuit, print_circuit};
use mc_gates::GateList;
use mc_gates_text::print_gates;
use mc_graph::OpenGraph;
use mc_model::Memory;
use mc_pattern::{Change, Pattern};
use mc_trace::Derivation;
use std::alloc::Global;

/// A document: a circuit; a pattern with or without a change of its outcomes, or with a trace, which need not lead anywhere;
/// two patterns, with the line and the column at which the second begins; an open graph with or without a certificate, which
/// need not hold; or a list of gates.
#[derive(Drop)]
pub enum Document<const H: usize> {
    Circuit(Circuit<H>),
    Pattern(Pattern<H>, Option<Change>),
    Traced(Pattern<H>, Derivation),
    Two(Pattern<H>, Pattern<H>, u32, u32),
    Graph(OpenGraph<H>, Option<Cert>),
    Gates(GateList),
}

/// A document, and the line and the column of its first word.
#[derive(Drop)]
pub struct Placed<const H: usize> {
    pub document: Document<H>,
    pub line: u32,
    pub column: u32,
}

impl<const H: usize> Document<H> {
    ghost use Rattle.mc_cert_text.specs.Certs.{plain_cert};
    ghost use Rattle.mc_document.specs.Documents.{cert_in, circuit_in, gates_in, graph_in, pattern_in};
    ghost use Rattle.mc_document.specs.Documents.{plain_document, traced_in, two_in};

    /// Whether it is a circuit.
    pub fn is_circuit(&self) -> bool
        ensures { result ≡ is_some (circuit_in (plain_document self.now)) }
    {
        matches!(self, Document::Circuit(_))
    }

    /// Whether it is a pattern.
    pub fn is_pattern(&self) -> bool
        ensures { result ≡ is_some (pattern_in (plain_document self.now)) }
    {
        matches!(self, Document::Pattern(_, _) | Document::Traced(_, _))
    }

    /// The circuit of a document that is one.
    pub fn into_circuit(self) -> Circuit<H>
        requires { IsTrue (is_some (circuit_in (plain_document self))) }
        ensures { circuit_in (plain_document self.entry) ≡ Some result }
    {
        match self {
            Document::Circuit(circuit) => circuit,
            _ => unreachable!(),
        }
    }

    /// The pattern of a document that is one.
    pub fn into_pattern(self) -> Pattern<H>
        requires { IsTrue (is_some (pattern_in (plain_document self))) }
        ensures { pattern_in (plain_document self.entry) ≡ Some result }
    {
        match self {
            Document::Pattern(pattern, _) => pattern,
            Document::Traced(pattern, _) => pattern,
            _ => unreachable!(),
        }
    }

    /// Whether it is a pattern with a trace.
    pub fn is_traced(&self) -> bool
        ensures { result ≡ is_some (traced_in (plain_document self.now)) }
    {
        matches!(self, Document::Traced(_, _))
    }

    /// The pattern and the trace of a document that has one.
    pub fn into_traced(self) -> (Pattern<H>, Derivation)
        requires { IsTrue (is_some (traced_in (plain_document self))) }
        ensures pattern { pattern_in (plain_document self.entry) ≡ Some result.0 }
        ensures uses { traced_in (plain_document self.entry) ≡ Some result.1 }
    {
        match self {
            Document::Traced(pattern, uses) => (pattern, uses),
            _ => unreachable!(),
        }
    }

    /// The two patterns of a document that has two, and the line and the column at which the second begins.
    pub fn into_two(self) -> (Pattern<H>, Pattern<H>, u32, u32)
        requires { IsTrue (is_some (two_in (plain_document self))) }
        ensures { two_in (plain_document self.entry) ≡ Some result }
    {
        match self {
            Document::Two(first, second, line, column) => (first, second, line, column),
            _ => unreachable!(),
        }
    }

    /// The graph of a document that is one.
    pub fn into_graph(self) -> OpenGraph<H>
        requires { IsTrue (is_some (graph_in (plain_document self))) }
        ensures { graph_in (plain_document self.entry) ≡ Some result }
    {
        match self {
            Document::Graph(graph, _) => graph,
            _ => unreachable!(),
        }
    }

    /// The graph and the certificate of a document that has one.
    pub fn into_certified(self) -> (OpenGraph<H>, Cert)
        requires { IsTrue (is_some (cert_in (plain_document self))) }
        ensures graph { graph_in (plain_document self.entry) ≡ Some result.0 }
        ensures cert { cert_in (plain_document self.entry) ≡ Some (plain_cert result.1) }
    {
        match self {
            Document::Graph(graph, given) => match given {
                Some(cert) => (graph, cert),
                None => unreachable!(),
            },
            _ => unreachable!(),
        }
    }

    /// The list of gates of a document that is one.
    pub fn into_gates(self) -> GateList
        requires { IsTrue (is_some (gates_in (plain_document self))) }
        ensures { gates_in (plain_document self.entry) ≡ Some result }
    {
        match self {
            Document::Gates(gates) => gates,
            _ => unreachable!(),
        }
    }
}

/// The canonical text of a document that has no second pattern; its second section stands behind the first.
pub fn print_document<const H: usize>(
    alloc: Global,
    document: &Document<H>,
) -> Result<Vec<u8>, Memory>
    requires valid { IsDocument H (plain_document document.now) }
    requires not_two { two_in (plain_document document.now) ≡ None }
    ensures { IfOk result (λ text. text.items ≡ document_text H (plain_document document.now)) }
{
    match document {
        Document::Circuit(circuit) => print_circuit(alloc, circuit),
        Document::Pattern(pattern, change) => print_with_any(alloc, pattern, change),
        Document::Graph(graph, cert) => print_with_any_cert(alloc, graph, cert),
        Document::Traced(pattern, uses) => print_with_trace(alloc, pattern, uses),
        Document::Gates(gates) => print_gates(alloc, gates),
        Document::Two(_, _, _, _) => unreachable!(),
    }
}
