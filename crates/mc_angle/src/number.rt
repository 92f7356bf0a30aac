//! Words that spell numbers.

ghost use Rattle.std.specs.Prelude.{◌≡◌, ◌≤◌, IfSome, is_some, IsTrue};
ghost use Rattle.std.specs.List.{list_all};
ghost use Rattle.mc_angle.specs.Number.{is_digit, is_number, number_of};

/// The most digits of a number.
const MOST: usize = 4;

fn has_digits(word: &[u8]) -> bool
    ensures { result ≡ list_all is_digit word.now }
{
    word.iter().all(|b| *b >= b'0' && *b <= b'9')
}

fn spells_number(word: &[u8]) -> bool
    ensures { result ≡ is_number word.now }
{
    !word.is_empty() && word.len() <= MOST && has_digits(word)
}

fn value_of(digits: &[u8]) -> u16
    requires { IsTrue (is_number digits.now) }
    ensures value { result ≡ number_of digits.now }
    ensures within { result ≤ 9999 }
{
    let mut sum = 0;
    'digits: for digit in digits {
        sum = 10 * sum + (*digit - b'0') as u16;
    }
    sum
}

/// The number that a word spells; `None` where the word is not 1 to 4 digits.
pub fn read_number(word: &[u8]) -> Option<u16>
    ensures number { is_some result ≡ is_number word.now }
    ensures value { IfSome result (λ number. number ≡ number_of word.now) }
    ensures within { IfSome result (λ number. number ≤ 9999) }
{
    if spells_number(word) {
        Some(value_of(word))
    } else {
        None
    }
}
