//! Printing a change.

ghost use Rattle.std.specs.Prelude.{◌≡◌, ◌++◌, IfOk, OnOk, length, map};
ghost use Rattle.mc_model.specs.Shift.{IsChangeOf};
ghost use Rattle.mc_write.specs.Text.{text_of};
ghost use Rattle.mc_rows.specs.Written.{row_line};
ghost use Rattle.mc_change_text.specs.Changes.{AreRowsNamed, AreSets, has_constant, change_version};
ghost use Rattle.mc_change_text.specs.Kinds.{change_shape};
ghost use Rattle.mc_change_text.specs.Canonical.{written_row, change_text};

use mc_lex::Kind;
use mc_model::Memory;
use mc_names::Names;
use mc_pattern::{Change, Pattern};
use mc_rows::{Parts, Shape, print_end, print_row};
use mc_text::{Head, print_header};
use std::alloc::Global;

/// Whether the signal of a row has the constant.
fn has_one(change: &Change) -> bool
    ensures { result ≡ has_constant change.now }
{
    'rows: for i in 0..change.len() {
        let (_, signal) = change.row(i);
        if signal.constant() {
            return true;
        }
    }
    false
}

/// The version of the text.
fn version_of(change: &Change) -> u8
    ensures { result ≡ change_version change.now }
{
    if has_one(change) { 2 } else { 1 }
}

/// Writes the rows.
fn print_rows(text: &mut Vec<u8>, names: &Names, change: &Change) -> Result<(), Memory>
    requires { AreRowsNamed (length names.now) change.now }
    ensures text { OnOk result (text.new.items ≡ text.old.items
        ++ text_of (map (λ row. row_line change_shape names.now (written_row row)) change.now)) }
    ensures sets { OnOk result (AreSets change.now) }
{
    'rows: for i in 0..change.len() {
        let (q, signal) = change.row(i);
        let row = Parts {
            head: Head::O,
            number: 0,
            name: q,
            set: signal.members(),
            constant: signal.constant(),
        };
        print_row(text, names, Shape::Listed, row)?;
    }
    Ok(())
}

/// The canonical text of a change of a pattern's outcomes, with its header, which says the second version where the signal of a
/// row has the constant.
pub fn print_change<const H: usize>(
    alloc: Global,
    pattern: &Pattern<H>,
    change: &Change,
) -> Result<Vec<u8>, Memory>
    requires { IsChangeOf pattern.now change.now }
    ensures text { IfOk result (λ text. text.items ≡ change_text pattern.now change.now) }
    ensures sets { OnOk result (AreSets change.now) }
{
    let mut text = Vec::new(alloc);
    print_header(&mut text, Kind::Change, version_of(change), 4)?;
    print_rows(&mut text, pattern.names(), change)?;
    print_end(&mut text)?;
    Ok(text)
}
