//! Reading what stands behind the first section of a document.

ghost use Rattle.std.specs.Prelude.{◌≡◌, [], false, None, Some, OnOk, IfOk, IfErr, option_map};
ghost use Rattle.std.specs.Prelude.{if◌then◌else◌, IsTrue};
ghost use Rattle.mc_lex.specs.Left.{IsFurther};
ghost use Rattle.mc_model.specs.Steps.{is_permitted};
ghost use Rattle.mc_text.specs.declared.fault.Fault.TheVariants.{NoSecond};
ghost use Rattle.mc_text.specs.Judged.{behind_section, fault, first_in_section, section_lines};
ghost use Rattle.mc_text.specs.Stops.{IsEnd};
ghost use Rattle.mc_cert_text.specs.Certs.{plain_cert};
ghost use Rattle.mc_document.specs.Documents.{IsAnyCertOf, IsDocument};
ghost use Rattle.mc_document.specs.Documents.{plain_document, pattern};
ghost use Rattle.mc_document.specs.Second.{first_behind, first_behind_first};
ghost use Rattle.mc_document.specs.Sections.{StandsBehindPattern, behind_graph, behind_pattern};
ghost use Rattle.mc_document.specs.Sections.{rules_behind_pattern, spelled_behind_pattern};
ghost use Rattle.mc_document.specs.Sections.{spelled_cert, with_second};

use crate::document::Document;
use crate::takes::{BehindGraph, BehindPattern, Takes};
use mc_cert_text::{Cert, read_cert};
use mc_change_text::read_change;
use mc_graph::OpenGraph;
use mc_lex::{Kind, TextEnd, Token, Words};
use mc_pattern::Pattern;
use mc_pattern_text::read_pattern;
use mc_text::{Fault, Header, read_header};
use mc_trace_text::read_trace;
use std::alloc::Global;

/// Reads what may or must stand behind a pattern, and nothing more. `NoSecond` where nothing does, and something is due.
pub(crate) fn read_behind_pattern<const H: usize>(
    alloc: Global,
    words: &mut Words<'_>,
    pattern: Pattern<H>,
    takes: Takes,
) -> Result<Document<H>, TextEnd>
    requires permitted { IsTrue (is_permitted H) }
    ensures clean { OnOk result
        (first_behind_first (behind_pattern H takes pattern.entry) words.old.later words.old.last ≡ None) }
    ensures value { IfOk result (λ document.
        spelled_behind_pattern H pattern.entry words.old.later ≡ plain_document document) }
    ensures valid { IfOk result (λ document. IsDocument H (plain_document document)) }
    ensures err { IfErr result (λ end. IsEnd end
        (first_behind_first (behind_pattern H takes pattern.entry) words.old.later words.old.last)) }
{
    if !words.next_line() {
        if let Err(end) = end_without(words, takes.is_due_behind_pattern()) {
            return Err(end);
        }
        return Ok(Document::Pattern(pattern, None));
    }
    let header = match read_header(&BehindPattern::<H> { takes }, words) {
        Ok(header) => header,
        Err(end) => return Err(end),
    };
    let document = match read_second(alloc, words, pattern, header) {
        Ok(document) => document,
        Err(end) => return Err(end),
    };
    match read_nothing(words) {
        Ok(()) => Ok(document),
        Err(end) => Err(end),
    }
}

/// Reads the lines of a section that stands behind a pattern.
fn read_second<const H: usize>(
    alloc: Global,
    words: &mut Words<'_>,
    pattern: Pattern<H>,
    header: Header,
) -> Result<Document<H>, TextEnd>
    requires permitted { IsTrue (is_permitted H) }
    requires stands { StandsBehindPattern header.kind }
    ensures clean { OnOk result
        (first_in_section (rules_behind_pattern pattern.entry header.kind header.version) []
        words.old.later words.old.last ≡ None) }
    ensures value { IfOk result (λ document. plain_document document
        ≡ with_second H pattern.entry header.kind (header.line, header.column)
        (section_lines words.old.later)) }
    ensures valid { IfOk result (λ document. IsDocument H (plain_document document)) }
    ensures behind { OnOk result (words.new.later ≡ behind_section words.old.later) }
    ensures err { IfErr result (λ end. IsEnd end
        (first_in_section (rules_behind_pattern pattern.entry header.kind header.version) []
        words.old.later words.old.last)) }
{
    match header.kind {
        Kind::Change => match read_change(alloc, words, &pattern, header.version) {
            Ok(change) => Ok(Document::Pattern(pattern, Some(change))),
            Err(end) => Err(end),
        },
        Kind::Trace => match read_trace(alloc, words) {
            Ok(uses) => Ok(Document::Traced(pattern, uses)),
            Err(end) => Err(end),
        },
        Kind::Pattern => match read_pattern(alloc, words, header.version) {
            Ok(second) => Ok(Document::Two(pattern, second, header.line, header.column)),
            Err(end) => Err(end),
        },
        _ => unreachable!(),
    }
}

/// Reads a certificate, where one stands behind a graph, and nothing more. `NoSecond` where none does, and one is due.
pub(crate) fn read_behind_graph<const H: usize>(
    alloc: Global,
    words: &mut Words<'_>,
    graph: &OpenGraph<H>,
    due: bool,
) -> Result<Option<Cert>, TextEnd>
    ensures clean { OnOk result
        (first_behind_first (behind_graph due graph.now) words.old.later words.old.last ≡ None) }
    ensures value { IfOk result (λ cert.
        spelled_cert graph.now words.old.later ≡ option_map plain_cert cert) }
    ensures valid { IfOk result (λ cert. IsAnyCertOf graph.now (option_map plain_cert cert)) }
    ensures err { IfErr result (λ end. IsEnd end
        (first_behind_first (behind_graph due graph.now) words.old.later words.old.last)) }
{
    if !words.next_line() {
        if let Err(end) = end_without(words, due) {
            return Err(end);
        }
        return Ok(None);
    }
    let header = match read_header(&BehindGraph, words) {
        Ok(header) => header,
        Err(end) => return Err(end),
    };
    let cert = match read_cert(alloc, words, header.kind, graph) {
        Ok(cert) => cert,
        Err(end) => return Err(end),
    };
    match read_nothing(words) {
        Ok(()) => Ok(Some(cert)),
        Err(end) => Err(end),
    }
}

/// The end of a text without a second section: `NoSecond` where one is due.
fn end_without(words: &Words<'_>, due: bool) -> Result<(), TextEnd>
    ensures clean { OnOk result (due ≡ false) }
    ensures err { IfErr result (λ end. IsEnd end
        (if due then Some (fault NoSecond, words.now.last) else None)) }
{
    if due {
        let (line, column) = words.end_place();
        return Err(Fault::NoSecond.at(line, column));
    }
    Ok(())
}

/// That no line with a token stands behind.
pub(crate) fn read_nothing(words: &mut Words<'_>) -> Result<(), TextEnd>
    ensures clean { OnOk result (first_behind words.old.later ≡ None) }
    ensures err { IfErr result (λ end. IsEnd end (first_behind words.old.later)) }
{
    if !words.next_line() {
        return Ok(());
    }
    match words.next() {
        Token::Word(word) => Err(Fault::BehindEnd.at(word.line, word.column)),
        Token::Bad { line, column } => Err(Fault::StrayByte.at(line, column)),
        Token::End { .. } => Ok(()),
    }
}
