//! What stands before a word.

ghost use Rattle.std.specs.Prelude.{◌≡◌};
ghost use Rattle.mc_text.specs.Points.{next_point, first_point, mark_of};

use crate::head::Head;

/// A word that opens a list of names.
#[derive(Clone, Copy, Debug, PartialEq, Eq)]
pub enum Mark {
    /// `s:`
    S,
    /// `t:`
    T,
    /// `:`
    Colon,
}

impl Mark {
    /// The mark that a word spells, if it spells one.
    pub fn read(word: &[u8]) -> Option<Mark>
        ensures { result ≡ mark_of word.now }
    {
        match word {
            b"s:" => Some(Mark::S),
            b"t:" => Some(Mark::T),
            b":" => Some(Mark::Colon),
            _ => None,
        }
    }
}

/// Where a word stands in its section: the record word of the line before and of its own line, how
/// many words stand before it on the line, up to four, and the last mark among them.
#[derive(Clone, Copy, Debug, PartialEq, Eq)]
pub struct Point {
    pub last: Option<Head>,
    pub head: Option<Head>,
    pub count: u8,
    pub mark: Option<Mark>,
}

impl Point {
    /// At the start of a line.
    pub(crate) fn at_start(last: Option<Head>) -> Point
        ensures { result ≡ first_point last }
    {
        Point {
            last,
            head: None,
            count: 0,
            mark: None,
        }
    }

    /// Behind a further word.
    pub(crate) fn behind(self, word: &[u8]) -> Point
        ensures { result ≡ next_point self word.now }
    {
        if self.count == 0 {
            return Point {
                last: self.last,
                head: Head::read(word),
                count: 1,
                mark: None,
            };
        }
        Point {
            last: self.last,
            head: self.head,
            count: if self.count < 4 {
                self.count + 1
            } else {
                self.count
            },
            mark: Mark::read(word).or(self.mark),
        }
    }
}
