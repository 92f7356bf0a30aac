//! Reading a pattern.

ghost use Rattle.std.specs.Prelude.{◌≡◌, [], None, OnOk, IfOk, IfErr, IsTrue};
ghost use Rattle.mc_lex.specs.Left.{IsFurther};
ghost use Rattle.mc_model.specs.Steps.{is_permitted};
ghost use Rattle.mc_text.specs.Judged.{first_in_section, section_lines, behind_section};
ghost use Rattle.mc_text.specs.Stops.{IsEnd};
ghost use Rattle.mc_pattern_text.specs.Judge.{pattern_rules};
ghost use Rattle.mc_pattern_text.specs.Value.{pattern_of};

use crate::reader::Reader;
use mc_lex::{TextEnd, Words};
use mc_pattern::Pattern;
use mc_text::read_section;
use std::alloc::Global;

/// Reads the lines of a pattern behind its header, through its `end`; in a section of version 2 signals may have the
/// constant. `Refused` is the first fault and `Limit` the first passed limit, whichever stands first; the words then
/// stand somewhere in the text.
pub fn read_pattern<const H: usize>(
    alloc: Global,
    words: &mut Words<'_>,
    version: u8,
) -> Result<Pattern<H>, TextEnd>
    requires { IsTrue (is_permitted H) }
    ensures clean { OnOk result
        (first_in_section (pattern_rules version) [] words.old.later words.old.last ≡ None) }
    ensures value { IfOk result (λ pattern. pattern ≡ pattern_of H (section_lines words.old.later)) }
    ensures behind { OnOk result (words.new.later ≡ behind_section words.old.later) }
    ensures whole { OnOk result (words.new.here ≡ []) }
    ensures further { IsFurther words.old words.new }
    ensures err { IfErr result (λ end.
        IsEnd end (first_in_section (pattern_rules version) [] words.old.later words.old.last)) }
{
    let mut reader = Reader::new(alloc, version);
    if let Err(end) = read_section(words, &mut reader) {
        return Err(end);
    }
    let _count = reader.names.len();
    Ok(Pattern::of(reader.names, reader.inputs, reader.commands, reader.outputs))
}
