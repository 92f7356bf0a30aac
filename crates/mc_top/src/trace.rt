//! `trace`: a pattern with a derivation of its standard form behind it.

ghost use Rattle.std.specs.Prelude.{◌≡◌, ◌≤◌, None, length, OnOk, IfOk, IfErr, IsTrue};
ghost use Rattle.mc_model.specs.Steps.{is_permitted};
ghost use Rattle.mc_document.specs.Documents.{plain_document};
ghost use Rattle.mc_document.specs.Documents.{IsTaken, circuits_and_patterns};
ghost use Rattle.mc_top.specs.Due.{GivesDue, Holds, IsLimit, holding};
ghost use Rattle.mc_top.specs.Trace.{IsDueTrace, IsTraceDue, IsTracedText, MeansTrace, MeansTraced};
ghost use Rattle.mc_top.specs.Trace.{trace_limit};

use crate::answer::{Answer, told};
use crate::source::source;
use mc_document::{Document, print_with_trace};
use mc_lex::TextEnd;
use mc_model::Memory;
use mc_pattern::Pattern;
use mc_rules::derivations_keep_patterns;
use mc_trace::derive;
use std::alloc::Global;

/// The word that asks for it.
pub(crate) const WORD: &[u8] = b"trace";

/// The most commands of a pattern of which a derivation is made or checked.
const MOST_COMMANDS: usize = 64;

/// The text of a document's pattern, with a derivation of its standard form behind it.
pub(crate) fn answer_trace<const H: usize>(
    alloc: Global,
    document: Document<H>,
) -> Result<Answer, TextEnd>
    requires permitted { IsTrue (is_permitted H) }
    requires taken { IsTaken circuits_and_patterns (plain_document document) }
    ensures due { GivesDue (IsDueTrace H (plain_document document.entry)) result }
    ensures meaning { OnOk result (MeansTrace H (plain_document document.entry)) }
    ensures holds { IfOk result Holds }
{
    match source(alloc, document) {
        Ok(source) => answer_traced(alloc, &source),
        Err(end) => Err(end),
    }
}

/// The text of a pattern with a derivation of its standard form behind it.
fn answer_traced<const H: usize>(alloc: Global, source: &Pattern<H>) -> Result<Answer, TextEnd>
    ensures due { GivesDue (IsTraceDue H source.now) result }
    ensures meaning { MeansTraced H source.now }
    ensures holds { IfOk result Holds }
{
    derivations_keep_patterns();
    // the proof needs that the pattern is valid
    let _names = source.names();
    if let Err(end) = within_limit(source) {
        return Err(end);
    }
    told(print_traced(alloc, source))
}

/// `Limit` 6 where a pattern has more than 64 commands.
pub(crate) fn within_limit<const H: usize>(p: &Pattern<H>) -> Result<(), TextEnd>
    ensures few { OnOk result (length p.now.commands ≤ 64) }
    ensures ok { OnOk result (trace_limit p.now ≡ None) }
    ensures err { IfErr result (λ end. IsLimit end (trace_limit p.now)) }
{
    let count = p.commands().len();
    if count > MOST_COMMANDS {
        return Err(TextEnd::Limit {
            which: 6,
            found: count as u64,
        });
    }
    Ok(())
}

fn print_traced<const H: usize>(alloc: Global, source: &Pattern<H>) -> Result<Vec<u8>, Memory>
    requires { length source.now.commands ≤ 64 }
    ensures { IfOk result (λ text. IsTracedText H source.now (holding text.items)) }
{
    let uses = derive(alloc, source)?;
    print_with_trace(alloc, source, &uses)
}
