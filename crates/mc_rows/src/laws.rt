//! What the lines of rows are, on the contract of a function that does nothing.

ghost use Rattle.std.specs.Prelude.{◌≡◌, ◌<◌, ◌∷◌, [], ℕ, List, None, Some, true, drop, length};
ghost use Rattle.std.specs.Prelude.{slice_get};
ghost use Rattle.std.specs.List.{list_all};
ghost use Rattle.mc_lex.specs.Lines.{lines_of};
ghost use Rattle.mc_model.specs.Names.{Name, AreNames};
ghost use Rattle.mc_write.specs.Text.{text_of};
ghost use Rattle.mc_text.specs.declared.head.Head.TheVariants.{End};
ghost use Rattle.mc_text.specs.Judged.{Words, Lines, Place, first_in_section, section_lines};
ghost use Rattle.mc_text.specs.Judged.{behind_section};
ghost use Rattle.mc_rows.specs.declared.row.Shape.TheVariants.{Bare};
ghost use Rattle.mc_rows.specs.declared.row.Row.{Row as PlainRow};
ghost use Rattle.mc_rows.specs.Rows.{Shapes, rows_in};
ghost use Rattle.mc_rows.specs.Judge.{Kind, row_rules};
ghost use Rattle.mc_rows.specs.Written.{rows_lines, AreSound, IsWrittenHeader, IsWithin};

/// Reading takes the lines of sound rows behind a header, and gives the rows back.
pub fn rows_are_read()
    ensures clean { (kind : Kind) (names : List Name) (rows : List PlainRow) (header : Words) (end : Place)
        → AreNames names → kind.shape (Some End) ≡ Bare → AreSound kind names None [] rows
        → IsWrittenHeader header
        → first_in_section (row_rules kind names) []
        (drop 1 (lines_of (text_of (header ∷ rows_lines kind.shape names rows)))) end ≡ None }
    ensures whole { (kind : Kind) (names : List Name) (rows : List PlainRow) (header : Words)
        → AreNames names → kind.shape (Some End) ≡ Bare → AreSound kind names None [] rows
        → IsWrittenHeader header
        → behind_section (drop 1 (lines_of (text_of (header ∷ rows_lines kind.shape names rows)))) ≡ [] }
    ensures same { (kind : Kind) (names : List Name) (rows : List PlainRow) (header : Words)
        → AreNames names → kind.shape (Some End) ≡ Bare → AreSound kind names None [] rows
        → IsWrittenHeader header
        → rows_in kind.shape names (section_lines
        (drop 1 (lines_of (text_of (header ∷ rows_lines kind.shape names rows))))) ≡ rows }
{}

/// The names and the members of the rows that lines spell are those of names, where there are any, and each set is in
/// order.
pub fn rows_are_within()
    ensures { (shape : Shapes) (names : List Name) (lines : Lines) → 0 < length names
        → (i : ℕ) (row : PlainRow) → slice_get (rows_in shape names lines) i ≡ Some row
        → IsWithin (length names) row }
{}
