//! Reading a trace.

ghost use Rattle.std.specs.Prelude.{◌≡◌, [], None, OnOk, IfOk, IfErr};
ghost use Rattle.mc_lex.specs.Left.{IsFurther};
ghost use Rattle.mc_text.specs.Judged.{first_in_section, section_lines, behind_section};
ghost use Rattle.mc_text.specs.Stops.{IsEnd};
ghost use Rattle.mc_trace_text.specs.Traces.{trace_rules, uses_in, CanBeWritten};

use crate::section::TraceReader;
use mc_lex::{TextEnd, Words};
use mc_text::read_section;
use mc_trace::Derivation;
use std::alloc::Global;

/// Reads the lines of a trace behind its header, through its `end`. `Refused` is the first fault and `Limit` the first passed
/// limit, the seventh, on uses, whichever stands first; the words then stand somewhere in the text.
pub fn read_trace(alloc: Global, words: &mut Words<'_>) -> Result<Derivation, TextEnd>
    ensures clean { OnOk result
        (first_in_section trace_rules [] words.old.later words.old.last ≡ None) }
    ensures value { IfOk result (λ uses. uses ≡ uses_in (section_lines words.old.later)) }
    ensures fits { IfOk result CanBeWritten }
    ensures behind { OnOk result (words.new.later ≡ behind_section words.old.later) }
    ensures whole { OnOk result (words.new.here ≡ []) }
    ensures further { IsFurther words.old words.new }
    ensures err { IfErr result (λ end.
        IsEnd end (first_in_section trace_rules [] words.old.later words.old.last)) }
{
    let mut reader = TraceReader::new(alloc);
    if let Err(end) = read_section(words, &mut reader) {
        return Err(end);
    }
    Ok(reader.uses)
}
