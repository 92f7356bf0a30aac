//! `check`: whether a certificate holds of the graph before it, or a trace of the pattern.

ghost use Rattle.std.specs.Prelude.{◌≡◌, ◌≤◌, None, Some, OnOk, IfOk, is_none, length};
ghost use Rattle.mc_cert.specs.Rules.{breach, breach_of};
ghost use Rattle.mc_cert_text.specs.Certs.{IsCertOf, plain_cert};
ghost use Rattle.mc_document.specs.Documents.{IsDocument, plain_document};
ghost use Rattle.mc_document.specs.Documents.{IsTaken, certified_kinds};
ghost use Rattle.mc_top.specs.Check.{IsDueCheck, IsDueTraced, MeansCheck, MeansTraceVerdict};
ghost use Rattle.mc_top.specs.Check.{MeansVerdict, breach_in, due_verdict};
ghost use Rattle.mc_top.specs.Check.{verdict_text};
ghost use Rattle.mc_top.specs.Due.{Gives, GivesDue};

use crate::answer::{Answer, judged};
use crate::laws::bounds_mean_depths;
use crate::trace::within_limit;
use mc_cert::Verdict;
use mc_cert_text::{Cert, check_cert};
use mc_document::{Document, taken_documents_are_seen};
use mc_graph::OpenGraph;
use mc_lex::TextEnd;
use mc_model::{Memory, refuters_exclude_flows, stuck_sets_exclude_causal_flows};
use mc_pattern::Pattern;
use mc_rules::derivations_keep_patterns;
use mc_trace::{Derivation, check_trace};
use mc_write::{add_number, add_word, end_line, start_line};
use std::alloc::Global;

/// The word that asks for it.
pub(crate) const WORD: &[u8] = b"check";

/// `yes` where the certificate of a graph holds, or the trace of a pattern is a derivation of its standard form; else, with
/// `No`, the first row that breaks a rule, and the least rule that it breaks.
pub(crate) fn answer_check<const H: usize>(
    alloc: Global,
    document: Document<H>,
) -> Result<Answer, TextEnd>
    requires valid { IsDocument H (plain_document document) }
    requires taken { IsTaken certified_kinds (plain_document document) }
    ensures due { GivesDue (IsDueCheck (plain_document document.entry)) result }
    ensures meaning { OnOk result (MeansCheck H (plain_document document.entry)) }
{
    taken_documents_are_seen();
    if document.is_traced() {
        let (pattern, uses) = document.into_traced();
        answer_traced(alloc, &pattern, &uses)
    } else {
        let (graph, cert) = document.into_certified();
        answer_verdict(alloc, &graph, &cert)
    }
}

/// The verdict on a trace, or `Limit` 6.
fn answer_traced<const H: usize>(
    alloc: Global,
    pattern: &Pattern<H>,
    uses: &Derivation,
) -> Result<Answer, TextEnd>
    requires { length uses.now ≤ 65_536 }
    ensures due { GivesDue (IsDueTraced (pattern.now, uses.now)) result }
    ensures meaning { MeansTraceVerdict H (pattern.now, uses.now) }
{
    derivations_keep_patterns();
    // the proof needs that the pattern is valid
    let _names = pattern.names();
    if let Err(end) = within_limit(pattern) {
        return Err(end);
    }
    match check_trace(alloc, pattern, uses) {
        Ok(verdict) => judged(print_verdict(alloc, verdict), is_yes(verdict)),
        Err(_) => Err(TextEnd::Memory),
    }
}

fn answer_verdict<const H: usize>(
    alloc: Global,
    graph: &OpenGraph<H>,
    cert: &Cert,
) -> Result<Answer, TextEnd>
    requires { IsCertOf graph.now (plain_cert cert.now) }
    ensures due { Gives result (due_verdict (breach_in (graph.now, plain_cert cert.now))) }
    ensures meaning { MeansVerdict (graph.now, plain_cert cert.now) }
{
    refuters_exclude_flows();
    stuck_sets_exclude_causal_flows();
    bounds_mean_depths();
    let verdict = check_cert(graph, cert);
    judged(print_verdict(alloc, verdict), is_yes(verdict))
}

fn is_yes(verdict: Verdict) -> bool
    ensures { result ≡ is_none (breach_of verdict) }
{
    matches!(verdict, Verdict::Yes)
}

/// The line of a verdict.
fn print_verdict(alloc: Global, verdict: Verdict) -> Result<Vec<u8>, Memory>
    ensures { IfOk result (λ text. text.items ≡ verdict_text (breach_of verdict)) }
{
    match verdict {
        Verdict::Yes => print_yes(alloc),
        Verdict::No { row, rule } => print_breach(alloc, row, rule),
    }
}

fn print_yes(alloc: Global) -> Result<Vec<u8>, Memory>
    ensures { IfOk result (λ text. text.items ≡ verdict_text None) }
{
    let mut text = Vec::new(alloc);
    start_line(&mut text, b"yes")?;
    end_line(&mut text)?;
    Ok(text)
}

fn print_breach(alloc: Global, row: u32, rule: u8) -> Result<Vec<u8>, Memory>
    ensures { IfOk result (λ text. text.items ≡ verdict_text (Some (breach row rule))) }
{
    let mut text = Vec::new(alloc);
    start_line(&mut text, b"no")?;
    add_word(&mut text, b"row")?;
    add_number(&mut text, row)?;
    add_word(&mut text, b"rule")?;
    add_number(&mut text, rule.into())?;
    end_line(&mut text)?;
    Ok(text)
}
