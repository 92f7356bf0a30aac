//! Tokens.

/// A word of a text, as a slice of it, with the line and the column of its first byte, both counted
/// from 1.
#[derive(Clone, Copy)]
pub struct Word<'a> {
    pub bytes: &'a [u8],
    pub line: u32,
    pub column: u32,
}

/// The next token of a line: a word, a byte that may stand nowhere but in comments, or the end of
/// the tokens, with the column just past the last of them.
#[derive(Clone, Copy)]
pub enum Token<'a> {
    Word(Word<'a>),
    Bad { line: u32, column: u32 },
    End { line: u32, column: u32 },
}
