//! What the canonical texts of patterns are, each law on the contract of a function that does nothing.

ghost use Rattle.std.specs.Prelude.{◌≡◌, ℕ, List, [], ◌∷◌, None, IsTrue, map, take};
ghost use Rattle.mc_lex.specs.declared.kind.Kind.TheVariants as kind;
ghost use Rattle.mc_lex.specs.Lines.{Line, lines_of, end_of};
ghost use Rattle.mc_model.specs.Pattern.{Pattern, HasNoConstants};
ghost use Rattle.mc_model.specs.Steps.{is_permitted};
ghost use Rattle.mc_pattern.specs.Patterns.{IsPattern};
ghost use Rattle.mc_text.specs.Headers.{header_words};
ghost use Rattle.mc_text.specs.Judged.{Place, first_in_section, section_lines, behind_section};
ghost use Rattle.mc_text.specs.Judged.{words_of};
ghost use Rattle.mc_pattern_text.specs.Judge.{pattern_rules};
ghost use Rattle.mc_pattern_text.specs.Value.{pattern_of};
ghost use Rattle.mc_pattern_text.specs.Canonical.{pattern_version, pattern_text, behind_header};

/// Reading takes the whole canonical text of a pattern, by the rules of its version, and gives the pattern back. The
/// first line is the header; what that says of the kind, the version and the step is a law of `mc_text`.
pub fn canonical_texts_are_read<const H: usize>()
    requires { IsTrue (is_permitted H) }
    ensures header { (p : Pattern) → map (λ line. words_of line.items) (take 1 (lines_of (pattern_text H p)))
        ≡ header_words kind.Pattern (pattern_version p) H ∷ [] }
    ensures clean { (p : Pattern) → IsPattern H p → first_in_section (pattern_rules (pattern_version p)) []
        (behind_header (pattern_text H p)) (end_of (pattern_text H p)) ≡ None }
    ensures whole { (p : Pattern) → IsPattern H p → behind_section (behind_header (pattern_text H p)) ≡ [] }
    ensures same { (p : Pattern) → IsPattern H p
        → pattern_of H (section_lines (behind_header (pattern_text H p))) ≡ p }
{}

/// Two patterns have two canonical texts.
pub fn canonical_texts_differ<const H: usize>()
    requires { IsTrue (is_permitted H) }
    ensures { (p q : Pattern) → IsPattern H p → IsPattern H q → pattern_text H p ≡ pattern_text H q → p ≡ q }
{}

/// Lines without a fault and a passed limit spell a pattern, and in version 1 one without constants.
pub fn clean_texts_spell_patterns<const H: usize>()
    requires { IsTrue (is_permitted H) }
    ensures valid { (version : ℕ) (lines : List Line) (end : Place)
        → first_in_section (pattern_rules version) [] lines end ≡ None
        → IsPattern H (pattern_of H (section_lines lines)) }
    ensures plain { (lines : List Line) (end : Place)
        → first_in_section (pattern_rules 1) [] lines end ≡ None
        → HasNoConstants (pattern_of H (section_lines lines)).commands }
{}
