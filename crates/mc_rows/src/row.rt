//! Rows, and the words that stand in them.

ghost use Rattle.std.specs.Prelude.{◌≡◌};
ghost use Rattle.mc_rows.specs.Rows.{role_in, row_of_none};

use mc_signal::QSet;
use mc_text::Head;
use std::alloc::Global;

/// What stands in a row behind its record word.
#[derive(Clone, Copy, Debug, PartialEq, Eq)]
pub enum Shape {
    /// Nothing.
    Bare,
    /// A number.
    Numbered,
    /// A number and a name.
    Ranked,
    /// A name and a set.
    Listed,
    /// A set.
    Set,
    /// A name, `:` and a set.
    NamedSet,
    /// A number, a name, `:` and a set.
    RankedSet,
}

/// What a word of a row is.
#[derive(Clone, Copy, Debug, PartialEq, Eq)]
pub enum Role {
    /// The record word.
    Record,
    Number,
    Name,
    /// The word `:`.
    Colon,
    /// A member of the set.
    Member,
    /// A word behind a row that is whole.
    Surplus,
}

impl Shape {
    /// What the word behind so many words is.
    pub(crate) fn role(self, before: u8) -> Role
        ensures { result ≡ role_in self before }
    {
        match (self, before) {
            (_, 0) => Role::Record,
            (Shape::Numbered | Shape::Ranked | Shape::RankedSet, 1) => Role::Number,
            (Shape::Listed | Shape::NamedSet, 1) => Role::Name,
            (Shape::Ranked | Shape::RankedSet, 2) => Role::Name,
            (Shape::NamedSet, 2) => Role::Colon,
            (Shape::RankedSet, 3) => Role::Colon,
            (Shape::Bare | Shape::Numbered | Shape::Ranked, _) => Role::Surplus,
            (Shape::Listed | Shape::Set | Shape::NamedSet | Shape::RankedSet, _) => Role::Member,
        }
    }
}

/// A row: its record word, its number and the number of its name, each 0 where the row has none,
/// the members of its set by their numbers, and whether `!` stands among them.
#[derive(Drop)]
pub struct Row {
    pub head: Option<Head>,
    pub number: u16,
    pub name: u16,
    pub set: QSet,
    pub constant: bool,
}

impl Row {
    /// Before the first word.
    pub(crate) fn new(alloc: Global) -> Row
        ensures { result ≡ row_of_none }
    {
        Row {
            head: None,
            number: 0,
            name: 0,
            set: QSet::new(alloc),
            constant: false,
        }
    }
}
