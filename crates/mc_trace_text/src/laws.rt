//! What the canonical texts of traces are, each law on the contract of a function that does nothing.

ghost use Rattle.std.specs.Prelude.{◌≡◌, List, [], None, drop};
ghost use Rattle.mc_lex.specs.Lines.{lines_of};
ghost use Rattle.mc_model.specs.Derivation.{Use};
ghost use Rattle.mc_text.specs.Judged.{Place, first_in_section, section_lines, behind_section};
ghost use Rattle.mc_trace_text.specs.Traces.{trace_rules, uses_in, CanBeWritten};
ghost use Rattle.mc_trace_text.specs.Canonical.{trace_text};

/// Reading takes the whole canonical text of uses that can be written, and gives the uses back.
pub fn trace_texts_are_read()
    ensures clean { (uses : List Use) (end : Place) → CanBeWritten uses
        → first_in_section trace_rules [] (drop 1 (lines_of (trace_text uses))) end ≡ None }
    ensures whole { (uses : List Use) → CanBeWritten uses
        → behind_section (drop 1 (lines_of (trace_text uses))) ≡ [] }
    ensures same { (uses : List Use) → CanBeWritten uses
        → uses_in (section_lines (drop 1 (lines_of (trace_text uses)))) ≡ uses }
{}

/// Two lists of uses that can be written have two canonical texts.
pub fn trace_texts_differ()
    ensures { (uses others : List Use) → CanBeWritten uses → CanBeWritten others
        → trace_text uses ≡ trace_text others → uses ≡ others }
{
    trace_texts_are_read();
}
