//! How many steps a turn has, as a text says.

ghost use Rattle.std.specs.Prelude.{◌≡◌, ◌≤◌, length};
ghost use Rattle.mc_model.specs.Limits.{most_bytes};
ghost use Rattle.mc_lex.specs.Given.{item_of};
ghost use Rattle.mc_text.specs.Headers.{IsHalf};
ghost use Rattle.mc_document.specs.Turns.{are_sixteenths, half_of, is_spelled};

use mc_lex::{Token, Words};

/// How many steps half a turn has: 8 exactly where the first line with a token has `turn` and `16` for its third and fourth
/// words, else 4.
pub fn turn_of(text: &[u8]) -> usize
    requires { length text.now ≤ most_bytes }
    ensures half { result ≡ half_of text.now }
    ensures steps { IsHalf result }
{
    let mut words = Words::new(text);
    words.next_line();
    let _kind = words.next();
    let _version = words.next();
    let turn = words.next();
    let number = words.next();
    if are_sixteenths(turn, number) { 8 } else { 4 }
}

/// Whether two tokens are the words `turn 16`.
fn are_sixteenths(turn: Token<'_>, number: Token<'_>) -> bool
    ensures { result ≡ are_sixteenths (item_of turn.entry) (item_of number.entry) }
{
    is_word(turn, b"turn") && is_word(number, b"16")
}

/// Whether a token is this word.
fn is_word(token: Token<'_>, spelled: &[u8]) -> bool
    ensures { result ≡ is_spelled spelled.now (item_of token.entry) }
{
    match token {
        Token::Word(word) => word.bytes == spelled,
        _ => false,
    }
}
