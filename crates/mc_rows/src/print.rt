//! Printing rows.

ghost use Rattle.std.specs.Prelude.{◌≡◌, ◌++◌, ◌∷◌, [], ◌<◌, All, OnOk, codes, length, map, true};
ghost use Rattle.std.specs.Prelude.{if◌then◌else◌};
ghost use Rattle.std.specs.Fmt.{decimal};
ghost use Rattle.mc_text.specs.Heads.{spelling};
ghost use Rattle.mc_write.specs.Text.{line_text, words_behind};
ghost use Rattle.mc_write.specs.Named.{name_at};
ghost use Rattle.mc_rows.specs.Kept.{has_name};
ghost use Rattle.mc_rows.specs.Written.{set_words, words_of_row, due_words, has_set, row_with};
ghost use Rattle.mc_rows.specs.Written.{IsNamed};

use crate::row::Shape;
use mc_model::Memory;
use mc_names::Names;
use mc_signal::QSet;
use mc_text::Head;
use mc_write::{add_name, add_number, add_word, end_line, start_line};

/// What is written of a row. Where a shape lacks a number, a name or a set, it is 0 or empty.
#[derive(Clone, Copy)]
pub struct Parts<'s> {
    pub head: Head,
    pub number: u16,
    pub name: u16,
    pub set: &'s QSet,
    pub constant: bool,
}

/// Writes the members of a set as further words of a line, and behind them `!` for the constant.
pub fn add_set(text: &mut Vec<u8>, names: &Names, set: &QSet, constant: bool) -> Result<(), Memory>
    requires { All (λ q. q < length names.now) set.now }
    ensures { OnOk result (text.new.items ≡
        text.old.items ++ words_behind (set_words names.now set.now constant)) }
{
    add_members(text, names, set)?;
    if constant {
        add_word(text, b"!")?;
    }
    Ok(())
}

/// Writes the members of a set as further words of a line.
fn add_members(text: &mut Vec<u8>, names: &Names, set: &QSet) -> Result<(), Memory>
    requires { All (λ q. q < length names.now) set.now }
    ensures { OnOk result (text.new.items ≡
        text.old.items ++ words_behind (map (name_at names.now) set.now)) }
{
    'members: for i in 0..set.len() {
        add_name(text, names, set.get(i))?;
    }
    Ok(())
}

/// Writes the words between the record word and the set.
fn add_due(
    text: &mut Vec<u8>,
    names: &Names,
    shape: Shape,
    number: u16,
    name: u16,
) -> Result<(), Memory>
    requires { has_name shape ≡ true → name < length names.now }
    ensures { OnOk result (text.new.items ≡
        text.old.items ++ words_behind (due_words shape names.now number name)) }
{
    match shape {
        Shape::Bare => Ok(()),
        Shape::Set => Ok(()),
        Shape::Numbered => add_number(text, number as u32),
        Shape::Ranked => add_ranked(text, names, number, name),
        Shape::Listed => add_name(text, names, name),
        Shape::NamedSet => add_named(text, names, name),
        Shape::RankedSet => {
            add_number(text, number as u32)?;
            add_named(text, names, name)
        }
    }
}

/// Writes a number and a name.
fn add_ranked(text: &mut Vec<u8>, names: &Names, number: u16, name: u16) -> Result<(), Memory>
    requires { name < length names.now }
    ensures { OnOk result (text.new.items ≡
        text.old.items ++ words_behind (decimal number ∷ name_at names.now name ∷ [])) }
{
    add_number(text, number as u32)?;
    add_name(text, names, name)
}

/// Writes a name and the word `:`.
fn add_named(text: &mut Vec<u8>, names: &Names, name: u16) -> Result<(), Memory>
    requires { name < length names.now }
    ensures { OnOk result (text.new.items ≡
        text.old.items ++ words_behind (name_at names.now name ∷ codes ":" ∷ [])) }
{
    add_name(text, names, name)?;
    add_word(text, b":")
}

/// Writes the set of a shape that has one.
fn add_set_of(
    text: &mut Vec<u8>,
    names: &Names,
    shape: Shape,
    set: &QSet,
    constant: bool,
) -> Result<(), Memory>
    requires { All (λ q. q < length names.now) set.now }
    ensures { OnOk result (text.new.items ≡ text.old.items
        ++ words_behind (if has_set shape then set_words names.now set.now constant else [])) }
{
    match shape {
        Shape::Bare => Ok(()),
        Shape::Numbered => Ok(()),
        Shape::Ranked => Ok(()),
        Shape::Listed => add_set(text, names, set, constant),
        Shape::Set => add_set(text, names, set, constant),
        Shape::NamedSet => add_set(text, names, set, constant),
        Shape::RankedSet => add_set(text, names, set, constant),
    }
}

/// Writes the line of a row.
pub fn print_row(
    text: &mut Vec<u8>,
    names: &Names,
    shape: Shape,
    row: Parts<'_>,
) -> Result<(), Memory>
    requires { IsNamed (length names.now) shape (row_with row) }
    ensures { OnOk result (text.new.items ≡ text.old.items
        ++ line_text (spelling row.entry.head ∷ words_of_row shape names.now (row_with row.entry))) }
{
    start_line(text, row.head.word())?;
    add_due(text, names, shape, row.number, row.name)?;
    add_set_of(text, names, shape, row.set, row.constant)?;
    end_line(text)
}

/// Writes the line `end`.
pub fn print_end(text: &mut Vec<u8>) -> Result<(), Memory>
    ensures { OnOk result (text.new.items ≡ text.old.items ++ line_text (codes "end" ∷ [])) }
{
    start_line(text, b"end")?;
    end_line(text)
}
