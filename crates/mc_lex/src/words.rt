//! Going through the words of a text.

ghost use Rattle.std.specs.Prelude.{◌≡◌, ◌≤◌, length};
ghost use Rattle.mc_model.specs.Limits.{most_bytes};
ghost use Rattle.mc_lex.specs.Given.{item_of, first_of, EndsAt};
ghost use Rattle.mc_lex.specs.Left.{begin, has_line, on_first, passed};
ghost use Rattle.mc_lex.specs.Places.{WordsAreSlices, LinesInOrder};

use crate::part::{Part, end_of_text, find_line, first_token, later_part};
use crate::token::Token;
use std::marker::Model;

/// Goes through the tokens of a text, line by line, and copies none of them. A contract sees what
/// is left of the text.
#[derive(Drop)]
pub struct Words<'a> {
    text: &'a [u8],
    /// What is left of the text from the current line on, where there is one.
    rest: Part<'a>,
    /// Whether there is a current line.
    inside: bool,
    /// The end place, once it has been counted.
    end: Option<(u32, u32)>,
}

impl<'a> Model for Words<'a> {
    ghost use Rattle.mc_lex.specs.Left.{Left};
    ghost use Rattle.mc_lex.specs.View.{left_of, IsPlaced};

    ghost Value = { Left };

    ghost view = { λ w. left_of w.text.now w.rest w.inside };

    ghost invariant = { λ w. IsPlaced w.text.now w.rest w.end };
}

impl<'a> Words<'a> {
    /// Stands before the first line. The lines are those with a word or a byte that is not allowed;
    /// each word of them is the slice of the text at its line and column, and they come in order.
    pub fn new(text: &'a [u8]) -> Words<'a>
        requires { length text.now ≤ most_bytes }
        ensures lines { result ≡ begin text.now }
        ensures slices { WordsAreSlices text.now }
        ensures in_order { LinesInOrder text.now }
    {
        Words {
            text,
            rest: Part {
                bytes: text,
                line: 1,
                column: 1,
            },
            inside: false,
            end: None,
        }
    }

    /// Goes to the next line with a token, and answers whether there is one. What is left of the
    /// current line is passed over.
    pub fn next_line(&mut self) -> bool
        ensures found { result ≡ has_line self.old.later }
        ensures left { self.new ≡ on_first self.old.later self.old.last }
    {
        match find_line(later_part(self.rest, self.inside)) {
            Some(part) => {
                self.rest = part;
                self.inside = true;
                true
            }
            None => {
                self.rest.bytes = &self.text[..0];
                self.inside = false;
                false
            }
        }
    }

    /// The next token of the current line. Where none is left it is `End`, again and again; where
    /// there is no current line, `End` stands at the end of the text.
    pub fn next(&mut self) -> Token<'a>
        ensures token { item_of result ≡ first_of self.old.here }
        ensures end { EndsAt result self.old.lack }
        ensures left { self.new ≡ passed self.old }
    {
        if !self.inside {
            let (line, column) = self.counted_end();
            return Token::End { line, column };
        }
        match first_token(self.rest) {
            Some((token, rest)) => {
                self.rest = rest;
                token
            }
            None => Token::End {
                line: self.rest.line,
                column: self.rest.column,
            },
        }
    }

    /// The place of the end of the text: the line behind its last line feed, and the column behind
    /// the last byte of that line.
    pub fn end_place(&self) -> (u32, u32)
        ensures { result ≡ self.now.last }
    {
        match self.end {
            Some(place) => place,
            None => end_of_text(self.text),
        }
    }

    /// The end place, which is counted once.
    fn counted_end(&mut self) -> (u32, u32)
        ensures place { result ≡ self.old.last }
        ensures same { self.new ≡ self.old }
    {
        let place = self.end_place();
        self.end = Some(place);
        place
    }
}
