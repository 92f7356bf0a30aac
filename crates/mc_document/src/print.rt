//! Printing two sections, one behind the other.

ghost use Rattle.std.specs.Prelude.{◌≡◌, ◌++◌, IfOk, OnOk, option_map};
ghost use Rattle.mc_model.specs.Shift.{IsChangeOf};
ghost use Rattle.mc_pattern_text.specs.Canonical.{pattern_text};
ghost use Rattle.mc_change_text.specs.Canonical.{change_text};
ghost use Rattle.mc_change_text.specs.Changes.{AreSets};
ghost use Rattle.mc_trace_text.specs.Canonical.{trace_text};
ghost use Rattle.mc_trace_text.specs.Traces.{CanBeWritten};
ghost use Rattle.mc_graph_text.specs.Canonical.{graph_text};
ghost use Rattle.mc_cert_text.specs.Canonical.{cert_text};
ghost use Rattle.mc_cert_text.specs.Certs.{HasShortNumbers, IsCertIn, IsCertOf, plain_cert};
ghost use Rattle.mc_document.specs.Documents.{IsAnyCertOf, IsAnyChangeOf, cert_behind, change_behind};

use mc_cert_text::{Cert, print_cert};
use mc_change_text::print_change;
use mc_graph::OpenGraph;
use mc_graph_text::print_graph;
use mc_model::Memory;
use mc_pattern::{Change, Pattern};
use mc_pattern_text::print_pattern;
use mc_trace::Derivation;
use mc_trace_text::print_trace;
use std::alloc::Global;

/// The text of a pattern with the change of its outcomes behind it, if there is one.
pub(crate) fn print_with_any<const H: usize>(
    alloc: Global,
    pattern: &Pattern<H>,
    change: &Option<Change>,
) -> Result<Vec<u8>, Memory>
    requires { IsAnyChangeOf pattern.now change.now }
    ensures { IfOk result (λ text.
        text.items ≡ pattern_text H pattern.now ++ change_behind pattern.now change.now) }
{
    match change {
        None => print_pattern(alloc, pattern),
        Some(change) => print_with_change(alloc, pattern, change),
    }
}

/// The text of a pattern with a change of its outcomes behind it.
pub fn print_with_change<const H: usize>(
    alloc: Global,
    pattern: &Pattern<H>,
    change: &Change,
) -> Result<Vec<u8>, Memory>
    requires { IsChangeOf pattern.now change.now }
    ensures text { IfOk result (λ text.
        text.items ≡ pattern_text H pattern.now ++ change_text pattern.now change.now) }
    ensures sets { OnOk result (AreSets change.now) }
{
    let text = print_pattern(alloc, pattern)?;
    let behind = print_change(alloc, pattern, change)?;
    joined(text, behind)
}

/// The text of a pattern with a trace behind it.
pub fn print_with_trace<const H: usize>(
    alloc: Global,
    pattern: &Pattern<H>,
    uses: &Derivation,
) -> Result<Vec<u8>, Memory>
    requires { CanBeWritten uses.now }
    ensures { IfOk result (λ text. text.items ≡ pattern_text H pattern.now ++ trace_text uses.now) }
{
    let text = print_pattern(alloc, pattern)?;
    let behind = print_trace(alloc, uses)?;
    joined(text, behind)
}

/// One text behind the other.
fn joined(mut text: Vec<u8>, behind: Vec<u8>) -> Result<Vec<u8>, Memory>
    ensures { IfOk result (λ both. both.items ≡ text.items ++ behind.items) }
{
    match text.extend_from_slice(behind.as_slice()) {
        Ok(()) => Ok(text),
        Err(_) => Err(Memory),
    }
}

/// The text of a graph with its certificate behind it, if there is one.
pub(crate) fn print_with_any_cert<const H: usize>(
    alloc: Global,
    graph: &OpenGraph<H>,
    cert: &Option<Cert>,
) -> Result<Vec<u8>, Memory>
    requires { IsAnyCertOf graph.now (option_map plain_cert cert.now) }
    ensures { IfOk result (λ text. text.items ≡
        graph_text H graph.now ++ cert_behind graph.now (option_map plain_cert cert.now)) }
{
    match cert {
        None => print_graph(alloc, graph),
        Some(cert) => print_with_cert(alloc, graph, cert),
    }
}

/// The text of a graph with a certificate behind it.
pub fn print_with_cert<const H: usize>(
    alloc: Global,
    graph: &OpenGraph<H>,
    cert: &Cert,
) -> Result<Vec<u8>, Memory>
    requires inside { IsCertIn graph.now (plain_cert cert.now) }
    requires numbers { HasShortNumbers (plain_cert cert.now) }
    ensures text { IfOk result (λ text. text.items ≡
        graph_text H graph.now ++ cert_text graph.now.names (plain_cert cert.now)) }
    ensures fits { OnOk result (IsCertOf graph.now (plain_cert cert.now)) }
{
    let text = print_graph(alloc, graph)?;
    let behind = print_cert(alloc, graph, cert)?;
    joined(text, behind)
}
