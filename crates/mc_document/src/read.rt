//! Reading a text as a document.

ghost use Rattle.std.specs.Prelude.{◌≡◌, ◌≤◌, length, None, Some, OnOk, IfOk, IfErr, IsTrue};
ghost use Rattle.mc_model.specs.Limits.{most_bytes};
ghost use Rattle.mc_model.specs.Steps.{is_permitted};
ghost use Rattle.mc_text.specs.Judged.{section_lines};
ghost use Rattle.mc_text.specs.Stops.{IsEnd};
ghost use Rattle.mc_circuit.specs.Judge.{circuit_rules};
ghost use Rattle.mc_circuit.specs.Value.{circuit_of};
ghost use Rattle.mc_gates.specs.Lists.{IsGateList};
ghost use Rattle.mc_gates_text.specs.Judge.{gates_rules};
ghost use Rattle.mc_gates_text.specs.Value.{gate_list_of};
ghost use Rattle.mc_document.specs.Documents.{IsDocument, IsTaken, plain_document, refused_kind};
ghost use Rattle.mc_document.specs.Sections.{first_alone, first_in_graph, first_in_kind};
ghost use Rattle.mc_document.specs.Sections.{first_in_lines, first_in_pattern};
ghost use Rattle.mc_document.specs.Sections.{first_in_text, spelled, spelled_graph};
ghost use Rattle.mc_document.specs.Sections.{spelled_in_kind, spelled_lines, spelled_pattern};
ghost use Rattle.mc_document.specs.Places.{first_place, place_in_lines};

use crate::document::{Document, Placed};
use crate::second::{read_behind_graph, read_behind_pattern, read_nothing};
use crate::takes::{First, Takes};
use mc_circuit::{Circuit, read_circuit};
use mc_gates::GateList;
use mc_gates_text::read_gates;
use mc_graph_text::read_graph;
use mc_lex::{Kind, TextEnd, Words};
use mc_pattern_text::read_pattern;
use mc_text::{Fault, Header, read_header};
use std::alloc::Global;

/// Reads a text as a document of a kind that is taken. `Refused` is the first fault and `Limit` the first passed limit,
/// whichever stands first.
pub fn read_document<const H: usize>(
    alloc: Global,
    text: &[u8],
    takes: Takes,
) -> Result<Document<H>, TextEnd>
    requires short { length text.now ≤ most_bytes }
    requires permitted { IsTrue (is_permitted H) }
    ensures clean { OnOk result (first_in_text H takes text.now ≡ None) }
    ensures value { IfOk result (λ document. spelled H text.now ≡ Some (plain_document document)) }
    ensures valid { IfOk result (λ document. IsDocument H (plain_document document)) }
    ensures taken { IfOk result (λ document. IsTaken takes (plain_document document)) }
    ensures err { IfErr result (λ end. IsEnd end (first_in_text H takes text.now)) }
{
    match read_placed(alloc, text, takes) {
        Ok(placed) => Ok(placed.document),
        Err(end) => Err(end),
    }
}

/// Reads a text as `read_document` does, and gives the place of the first word too.
pub fn read_placed<const H: usize>(
    alloc: Global,
    text: &[u8],
    takes: Takes,
) -> Result<Placed<H>, TextEnd>
    requires short { length text.now ≤ most_bytes }
    requires permitted { IsTrue (is_permitted H) }
    ensures clean { OnOk result (first_in_text H takes text.now ≡ None) }
    ensures value { IfOk result (λ placed. spelled H text.now ≡ Some (plain_document placed.document)) }
    ensures place { IfOk result (λ placed. first_place text.now ≡ (placed.line, placed.column)) }
    ensures valid { IfOk result (λ placed. IsDocument H (plain_document placed.document)) }
    ensures taken { IfOk result (λ placed. IsTaken takes (plain_document placed.document)) }
    ensures err { IfErr result (λ end. IsEnd end (first_in_text H takes text.now)) }
{
    let mut words = Words::new(text);
    let header = match read_opening::<H>(takes, &mut words) {
        Ok(header) => header,
        Err(end) => return Err(end),
    };
    match read_sections(alloc, takes, header, &mut words) {
        Ok(document) => Ok(Placed {
            document,
            line: header.line,
            column: header.column,
        }),
        Err(end) => Err(end),
    }
}

/// Reads the header of a document, which is the first line with a token: what is left is of the kind that it names.
fn read_opening<const H: usize>(takes: Takes, words: &mut Words<'_>) -> Result<Header, TextEnd>
    ensures first { IfOk result (λ header. first_in_lines H takes words.old.later words.old.last
        ≡ first_in_kind H takes (Some header.kind) header.version words.new.later words.new.last) }
    ensures value { IfOk result (λ header.
        spelled_lines H words.old.later ≡ spelled_in_kind H (Some header.kind) words.new.later) }
    ensures place { IfOk result (λ header.
        place_in_lines words.old.later words.old.last ≡ (header.line, header.column)) }
    ensures starts { IfOk result (λ header. refused_kind takes header.kind ≡ None) }
    ensures err { IfErr result (λ end. IsEnd end (first_in_lines H takes words.old.later words.old.last)) }
{
    if !words.next_line() {
        let (line, column) = words.end_place();
        return Err(Fault::NoKind.at(line, column));
    }
    match read_header(&First { takes }, words) {
        Ok(header) => Ok(header),
        Err(end) => Err(end),
    }
}

/// Reads the lines of a document behind its header, behind which nothing more may stand.
fn read_sections<const H: usize>(
    alloc: Global,
    takes: Takes,
    header: Header,
    words: &mut Words<'_>,
) -> Result<Document<H>, TextEnd>
    requires permitted { IsTrue (is_permitted H) }
    requires starts { refused_kind takes header.kind ≡ None }
    ensures clean { OnOk result
        (first_in_kind H takes (Some header.kind) header.version words.old.later words.old.last ≡ None) }
    ensures value { IfOk result (λ document.
        spelled_in_kind H (Some header.kind) words.old.later ≡ Some (plain_document document)) }
    ensures valid { IfOk result (λ document. IsDocument H (plain_document document)) }
    ensures err { IfErr result (λ end. IsEnd end
        (first_in_kind H takes (Some header.kind) header.version words.old.later words.old.last)) }
{
    match header.kind {
        Kind::Circuit => match read_circuit_alone(alloc, words) {
            Ok(circuit) => Ok(Document::Circuit(circuit)),
            Err(end) => Err(end),
        },
        Kind::Pattern => read_pattern_document(alloc, words, header.version, takes),
        Kind::Gates => match read_gates_alone(alloc, words) {
            Ok(gates) => Ok(Document::Gates(gates)),
            Err(end) => Err(end),
        },
        Kind::Graph => read_graph_document(alloc, words, header.version, takes.cert),
        _ => unreachable!(),
    }
}

/// Reads the lines of a circuit, behind which nothing more may stand.
fn read_circuit_alone<const H: usize>(
    alloc: Global,
    words: &mut Words<'_>,
) -> Result<Circuit<H>, TextEnd>
    requires { IsTrue (is_permitted H) }
    ensures clean { OnOk result (first_alone circuit_rules words.old.later words.old.last ≡ None) }
    ensures value { IfOk result (λ c. c ≡ circuit_of H (section_lines words.old.later)) }
    ensures err { IfErr result (λ end. IsEnd end (first_alone circuit_rules words.old.later words.old.last)) }
{
    let circuit = match read_circuit(alloc, words) {
        Ok(circuit) => circuit,
        Err(end) => return Err(end),
    };
    match read_nothing(words) {
        Ok(()) => Ok(circuit),
        Err(end) => Err(end),
    }
}

/// Reads the lines of a list of gates, behind which nothing more may stand.
fn read_gates_alone(alloc: Global, words: &mut Words<'_>) -> Result<GateList, TextEnd>
    ensures clean { OnOk result (first_alone gates_rules words.old.later words.old.last ≡ None) }
    ensures value { IfOk result (λ g. g ≡ gate_list_of (section_lines words.old.later)) }
    ensures valid { IfOk result IsGateList }
    ensures err { IfErr result (λ end. IsEnd end (first_alone gates_rules words.old.later words.old.last)) }
{
    let gates = match read_gates(alloc, words) {
        Ok(gates) => gates,
        Err(end) => return Err(end),
    };
    let _names = gates.names();
    match read_nothing(words) {
        Ok(()) => Ok(gates),
        Err(end) => Err(end),
    }
}

/// Reads the lines of a pattern of a version, with what may or must stand behind it, and nothing more.
fn read_pattern_document<const H: usize>(
    alloc: Global,
    words: &mut Words<'_>,
    version: u8,
    takes: Takes,
) -> Result<Document<H>, TextEnd>
    requires { IsTrue (is_permitted H) }
    ensures clean { OnOk result
        (first_in_pattern H takes version words.old.later words.old.last ≡ None) }
    ensures value { IfOk result (λ document.
        spelled_pattern H words.old.later ≡ plain_document document) }
    ensures valid { IfOk result (λ document. IsDocument H (plain_document document)) }
    ensures err { IfErr result (λ end.
        IsEnd end (first_in_pattern H takes version words.old.later words.old.last)) }
{
    match read_pattern(alloc, words, version) {
        Ok(pattern) => read_behind_pattern(alloc, words, pattern, takes),
        Err(end) => Err(end),
    }
}

/// Reads the lines of a graph of a version, behind which a certificate may stand, and nothing more; where one is due, it
/// must.
fn read_graph_document<const H: usize>(
    alloc: Global,
    words: &mut Words<'_>,
    version: u8,
    due: bool,
) -> Result<Document<H>, TextEnd>
    requires { IsTrue (is_permitted H) }
    ensures clean { OnOk result
        (first_in_graph H due version words.old.later words.old.last ≡ None) }
    ensures value { IfOk result (λ document. spelled_graph H words.old.later ≡ plain_document document) }
    ensures valid { IfOk result (λ document. IsDocument H (plain_document document)) }
    ensures err { IfErr result (λ end.
        IsEnd end (first_in_graph H due version words.old.later words.old.last)) }
{
    let graph = match read_graph(alloc, words, version) {
        Ok(graph) => graph,
        Err(end) => return Err(end),
    };
    match read_behind_graph(alloc, words, &graph, due) {
        Ok(cert) => Ok(Document::Graph(graph, cert)),
        Err(end) => Err(end),
    }
}
