//! What the canonical texts of changes are, each law on the contract of a function that does nothing.

ghost use Rattle.std.specs.Prelude.{◌≡◌, List, [], None, drop};
ghost use Rattle.mc_lex.specs.Lines.{lines_of};
ghost use Rattle.mc_model.specs.Pattern.{Pattern};
ghost use Rattle.mc_model.specs.Shift.{ChangeRow, IsChangeOf};
ghost use Rattle.mc_model.specs.Valid.{IsValidPattern};
ghost use Rattle.mc_text.specs.Judged.{Place, first_in_section, section_lines, behind_section};
ghost use Rattle.mc_change_text.specs.Changes.{AreSets, change_version};
ghost use Rattle.mc_change_text.specs.Kinds.{change_rules, rows_of};
ghost use Rattle.mc_change_text.specs.Canonical.{change_text};

use mc_rows::rows_are_read;

/// Reading behind a pattern, in the text's own version, takes the whole canonical text of a change of its outcomes and gives the
/// change back.
pub fn change_texts_are_read()
    ensures clean { (p : Pattern) (rows : List ChangeRow) (end : Place)
        → IsValidPattern p → IsChangeOf p rows → AreSets rows
        → first_in_section (change_rules (change_version rows) p) []
        (drop 1 (lines_of (change_text p rows))) end ≡ None }
    ensures whole { (p : Pattern) (rows : List ChangeRow)
        → IsValidPattern p → IsChangeOf p rows → AreSets rows
        → behind_section (drop 1 (lines_of (change_text p rows))) ≡ [] }
    ensures same { (p : Pattern) (rows : List ChangeRow)
        → IsValidPattern p → IsChangeOf p rows → AreSets rows
        → rows_of p.names (section_lines (drop 1 (lines_of (change_text p rows)))) ≡ rows }
{
    rows_are_read();
}

/// Two changes of a pattern's outcomes have two canonical texts.
pub fn change_texts_differ()
    ensures { (p : Pattern) (rows others : List ChangeRow) → IsValidPattern p
        → IsChangeOf p rows → AreSets rows → IsChangeOf p others → AreSets others
        → change_text p rows ≡ change_text p others → rows ≡ others }
{
    change_texts_are_read();
}
